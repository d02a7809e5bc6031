// The line of a record of a chain.
ghost use Rattle.std.specs.Prelude.{◌+◌, ◌≤◌, length};
ghost use Rattle.report.specs.Put.{Put, Short};
ghost use Rattle.report.specs.Report.{numbered};
ghost use Rattle.lines.specs.Lines.{kept_shown, cause_shown, times_shown, step_shown};

use crate::put::{put_named, put_record, put_timed, put_word};
use crate::{Cause, Stamped};

// A number to the end of the line.
fn put_numbered(room: &mut [u8], at: usize, word: &[u8], n: u64) -> usize
    requires { at + length word.now + 21 ≤ length room.old }
    ensures { Put room.old at (numbered word.now n) result room.new }
{
    let a = put_named(room, at, word, n);
    put_word(room, a, b"\n")
}

// A gap that is kept behind the record before.
fn put_kept(room: &mut [u8], at: usize, kept: u64, gap: u64, line: u64) -> usize
    requires { at + 97 ≤ length room.old }
    ensures { Put room.old at (kept_shown kept gap line) result room.new }
{
    let a = put_named(room, at, b" keeps ", kept);
    let b = put_named(room, a, b" of ", gap);
    put_numbered(room, b, b" microseconds after line ", line)
}

fn put_cause(room: &mut [u8], at: usize, cause: Cause) -> usize
    requires { at + 97 ≤ length room.old }
    ensures { Put room.old at (cause_shown cause) result room.new }
{
    match cause {
        Cause::Original => put_word(room, at, b" at its original\n"),
        Cause::Before => put_word(room, at, b" waits for the record before it\n"),
        Cause::Kept(kept, gap, line) => put_kept(room, at, kept, gap, line),
        Cause::Sent(latency) => put_numbered(room, at, b" waits for its send, latency ", latency),
    }
}

fn put_times(room: &mut [u8], at: usize, stamped: Stamped) -> usize
    requires { at + 55 ≤ length room.old }
    ensures { Short 55 room.old at (times_shown stamped) result room.new }
{
    let a = put_timed(room, at, b" original ", stamped.original);
    put_timed(room, a, b" corrected ", stamped.corrected)
}

pub(crate) fn put_step(room: &mut [u8], stamped: Stamped, cause: Cause) -> usize
    requires { 208 ≤ length room.old }
    ensures { Put room.old 0 (step_shown stamped cause) result room.new }
{
    let a = put_record(room, 0, b"line ", stamped);
    let b = put_times(room, a, stamped);
    put_cause(room, b, cause)
}
