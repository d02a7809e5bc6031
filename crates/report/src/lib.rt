// The report as bytes: document 01, "The program's whole report, header and all" and "The other reports are ..", and the lines that are
// the program's own; what the program says that makes a table of latencies; and what the one says that merges two traces.
#![tactic(auto)]

mod merged;
mod put;

ghost use Rattle.report.specs.Report.{Reported};
ghost use Rattle.report.specs.Said.{Spoken};
ghost use Rattle.report.specs.Told.{ToldInto};
ghost use Rattle.report.specs.Replied.{RepliedInto};

use paper::{Answer, Joined, Merged};

// What the program says, and all that it says: an answer's report, or a line of its own.
#[derive(Clone, Copy)]
pub enum Said {
    Answered(Answer),
    CannotRead,
    CannotWrite,
    TooMany,
}

// What the program says that makes a table: it is written, a line is bad, of a pair nothing is said, the text is too long, or a line
// that it has in common with the other program.
#[derive(Clone, Copy)]
pub enum Told {
    Written,
    BadLine(u64),
    Uncovered(u64, u64),
    TooLong,
    CannotRead,
    CannotWrite,
    TooMany,
}

// What the program says that merges two traces: the refusal, what was merged, or a line that it has in common with the others.
#[derive(Clone, Copy)]
pub enum Replied {
    Refused(Merged),
    Merged(Joined),
    CannotRead,
    CannotWrite,
    TooMany,
}

// The report of an answer at the room's start, and its length.
pub fn report(answer: Answer, room: &mut [u8; 256]) -> usize
    ensures { Reported answer room.old result room.new }
{
    let number = answer.number;
    if number != 0 {
        return put::put_refused(room, number, answer.line, answer.column);
    }
    put::put_accepted(room, answer)
}

// What is said at the room's start, and its length.
pub fn say(said: Said, room: &mut [u8; 256]) -> usize
    ensures { Spoken said room.old result room.new }
{
    match said {
        Said::Answered(answer) => report(answer, room),
        Said::CannotRead => put::put_word(room, 0, b"cannot read\n"),
        Said::CannotWrite => put::put_word(room, 0, b"cannot write\n"),
        Said::TooMany => put::put_word(room, 0, b"too many arguments\n"),
    }
}

// What is told at the room's start, and its length.
pub fn tell(told: Told, room: &mut [u8; 256]) -> usize
    ensures { ToldInto told room.old result room.new }
{
    match told {
        Told::Written => put::put_word(room, 0, b"table written\n"),
        Told::BadLine(line) => put::put_numbered(room, 0, b"refused line ", line),
        Told::Uncovered(sender, receiver) => put::put_pair(room, sender, receiver),
        Told::TooLong => put::put_word(room, 0, b"refused too long\n"),
        Told::CannotRead => say(Said::CannotRead, room),
        Told::CannotWrite => say(Said::CannotWrite, room),
        Told::TooMany => say(Said::TooMany, room),
    }
}

// What is replied at the room's start, and its length.
pub fn reply(replied: Replied, room: &mut [u8; 256]) -> usize
    ensures { RepliedInto replied room.old result room.new }
{
    match replied {
        Replied::Refused(merged) => merged::put_unmerged(room, merged),
        Replied::Merged(joined) => merged::put_merged(room, joined),
        Replied::CannotRead => say(Said::CannotRead, room),
        Replied::CannotWrite => say(Said::CannotWrite, room),
        Replied::TooMany => say(Said::TooMany, room),
    }
}
