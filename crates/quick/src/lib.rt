// A line read by one cursor, where it stands in its trace: a number ends where its digits end, and neither the LF nor a space is looked for
// beforehand. What is in doubt here is no answer: crate line, which goes step by step as document 01 does, has the last word on it.
#![tactic(auto)]

mod body;
mod digits;
mod head;
mod number;
mod pairs;
mod stamp;

ghost use Rattle.quick.specs.Lines.{BeginsAt, HoldsAt};

use paper::{Data, Head};

// The six fields of the line that starts at a place of the trace. With the byte behind each they are at most 73 bytes: where there are so
// many, none of them has to ask for its room.
pub fn read_six(s: &[u8], at: usize) -> Option<(Head, bool, usize)>
    ensures { BeginsAt s.now at result }
{
    let n = s.len();
    if n < 73 || n - 73 < at {
        return None;
    }
    head::six(s, at)
}

// The n data behind them, or in a statistics record the n pairs.
pub fn read_data(s: &[u8], ended: bool, at: usize, kind: i64, n: usize) -> Option<(Data, usize)>
    ensures { HoldsAt s.now ended at kind n result }
{
    if ended {
        body::none(n, at)
    } else {
        body::some(s, at, kind, n)
    }
}
