// The lines of the seventh change request as bytes: a message, by its send and its receive; and a record of the chain that moved a time,
// with what it waits for. A line is put at the start of a room that holds every one.
#![tactic(auto)]

mod post;
mod put;
mod record;
mod step;

ghost use Rattle.std.specs.Prelude.{◌≡◌, length};
ghost use Rattle.lines.specs.Adding.{Added};
ghost use Rattle.lines.specs.Lines.{LineInto, message_shown, step_shown};

pub use record::stamped_at;

// A listed record as the lines tell of it: where it stands, and its time before and after.
#[derive(Clone, Copy)]
pub struct Stamped {
    pub line: u64,
    pub processor: u64,
    pub original: i64,
    pub corrected: i64,
}

// Why a record of a chain has its time: it is its original one, it waits for the record before it on its processor, keeps so many
// microseconds of so many behind that one, which stands on such a line (change request 9), or waits for its send and so long.
#[derive(Clone, Copy)]
pub enum Cause {
    Original,
    Before,
    Kept(u64, u64, u64),
    Sent(u64),
}

// A message: its two records, how many bytes were received and how many sent, and its type.
pub fn message_line(
    send: Stamped,
    receive: Stamped,
    received: u64,
    sent: u64,
    tag: i64,
    room: &mut [u8; 256],
) -> usize
    ensures { LineInto (message_shown send receive received sent tag) room.old result room.new }
{
    post::put_message(room, send, receive, received, sent, tag)
}

// A record of a chain, and why it has its time.
pub fn step_line(stamped: Stamped, cause: Cause, room: &mut [u8; 256]) -> usize
    ensures { LineInto (step_shown stamped cause) room.old result room.new }
{
    step::put_step(room, stamped, cause)
}

// A room for one line.
pub fn blank() -> [u8; 256]
    ensures { length result ≡ 256 }
{
    [0; 256]
}

// A line behind what a room holds already; where it does not reach so far, nothing is touched.
pub fn add(room: &mut [u8], at: usize, line: &[u8]) -> usize
    ensures { Added room.old at line.now result room.new }
{
    if room.len() < at {
        return at;
    }
    if room.len() - at < line.len() {
        return at;
    }
    put::put_word(room, at, line)
}
