// The lines of a merging, put into a room one behind the other.
ghost use Rattle.std.specs.Prelude.{◌+◌, ◌≤◌, length};
ghost use Rattle.report.specs.Put.{Put, Short};
ghost use Rattle.report.specs.Replied.{unmerged_shown, tally_shown, merged_shown};

use crate::put::{put_named, put_numbered, put_place, put_word};
use paper::{Joined, Merged, Tally};

pub(crate) fn put_unmerged(room: &mut [u8], merged: Merged) -> usize
    requires { 110 ≤ length room.old }
    ensures { Put room.old 0 (unmerged_shown merged) result room.new }
{
    let a = put_named(room, 0, b"refused ", merged.number);
    let b = put_named(room, a, b" trace ", merged.which);
    put_place(room, b, merged.line, merged.column)
}

// What was counted of a trace, behind a word that names it.
fn put_tally(room: &mut [u8], at: usize, word: &[u8], tally: Tally) -> usize
    requires { at + length word.now + 49 ≤ length room.old }
    ensures { Short (length word.now + 49) room.old at (tally_shown word.now tally) result room.new }
{
    let a = put_named(room, at, word, tally.listed);
    put_numbered(room, a, b" passed ", tally.passed)
}

pub(crate) fn put_merged(room: &mut [u8], joined: Joined) -> usize
    requires { 162 ≤ length room.old }
    ensures { Put room.old 0 (merged_shown joined) result room.new }
{
    let a = put_named(room, 0, b"merged ", joined.lines);
    let b = put_word(room, a, b" lines\n");
    let c = put_tally(room, b, b"trace 1 listed ", joined.first);
    put_tally(room, c, b"trace 2 listed ", joined.second)
}
