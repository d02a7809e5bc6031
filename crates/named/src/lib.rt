// The words of a line of named arguments: where a word stands, whose name it is, and whether a value has its name's form.
#![tactic(auto)]

mod levels;
mod names;
mod share;
mod switch;
mod values;
mod words;

pub use levels::{Wanted, levels_of};
pub use names::name_of;
pub use share::share_of;
pub use switch::switch_of;
pub use values::{choice_of, is_forgotten, is_good};
pub use words::word_at;

// A part of a line.
#[derive(Clone, Copy)]
pub struct Span {
    pub from: usize,
    pub to: usize,
}

#[derive(Clone, Copy)]
pub enum Name {
    Choice,
    Trace,
    Table,
    Levels,
    Statistics,
    Share,
    Out,
}
