// The line of a message.
ghost use Rattle.std.specs.Prelude.{◌+◌, ◌≤◌, length};
ghost use Rattle.report.specs.Put.{Put, Short};
ghost use Rattle.lines.specs.Lines.{party_shown, sizes_shown, message_shown};

use crate::Stamped;
use crate::put::{put_named, put_record, put_timed, put_whole, put_word};

// A record of the message, with its corrected time.
fn put_party(room: &mut [u8], at: usize, word: &[u8], stamped: Stamped) -> usize
    requires { at + length word.now + 74 ≤ length room.old }
    ensures { Short (length word.now + 74) room.old at (party_shown word.now stamped) result room.new }
{
    let a = put_record(room, at, word, stamped);
    put_timed(room, a, b" time ", stamped.corrected)
}

// What was passed, to the end of the line.
fn put_sizes(room: &mut [u8], at: usize, received: u64, sent: u64, tag: i64) -> usize
    requires { at + 80 ≤ length room.old }
    ensures { Put room.old at (sizes_shown received sent tag) result room.new }
{
    let a = put_named(room, at, b" length ", received);
    let b = put_named(room, a, b" of ", sent);
    let c = put_word(room, b, b" type ");
    let d = put_whole(room, c, tag);
    put_word(room, d, b"\n")
}

pub(crate) fn put_message(
    room: &mut [u8],
    send: Stamped,
    receive: Stamped,
    received: u64,
    sent: u64,
    tag: i64,
) -> usize
    requires { 252 ≤ length room.old }
    ensures { Put room.old 0 (message_shown send receive received sent tag) result room.new }
{
    let a = put_party(room, 0, b"send line ", send);
    let b = put_party(room, a, b" receive line ", receive);
    put_sizes(room, b, received, sent, tag)
}
