// Whole files, in and out. What the system does with a name and with bytes no contract can say: these functions are proved safe,
// to end, and to count within what they are lent.
#![tactic(auto)]

mod beside;
mod in_place;
mod lent;
mod limit;
mod read;
mod say;
mod system;
mod write;

pub use lent::{no_latencies, table_buffer, trace_buffer};
pub use read::{held, load, load_behind};
pub use system::Disk;
pub use write::{store, store_asked};
