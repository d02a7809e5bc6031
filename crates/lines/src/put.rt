// Words, numbers and times put into a room one behind the other.
ghost use Rattle.std.specs.Prelude.{◌+◌, ◌≤◌, length};
ghost use Rattle.report.specs.Put.{Put, Short};
ghost use Rattle.report.specs.Report.{shown, named};
ghost use Rattle.lines.specs.Parts.{stamp_shown, timed, whole_shown, record_shown};

use crate::Stamped;

pub(crate) fn put_word(room: &mut [u8], at: usize, word: &[u8]) -> usize
    requires { at + length word.now ≤ length room.old }
    ensures { Put room.old at word.now result room.new }
{
    let n = octets::copy(word, &mut room[at..]);
    at + n
}

fn put_number(room: &mut [u8], at: usize, n: u64) -> usize
    requires { at + 20 ≤ length room.old }
    ensures { Short 20 room.old at (shown n) result room.new }
{
    let mut digits = [0u8; 20];
    let k = io::decimal(n, &mut digits);
    put_word(room, at, &digits[..k])
}

pub(crate) fn put_named(room: &mut [u8], at: usize, word: &[u8], n: u64) -> usize
    requires { at + length word.now + 20 ≤ length room.old }
    ensures { Short (length word.now + 20) room.old at (named word.now n) result room.new }
{
    let a = put_word(room, at, word);
    put_number(room, a, n)
}

// A signed number by its code: half of it is the size, less one of a negative number.
pub(crate) fn put_whole(room: &mut [u8], at: usize, z: i64) -> usize
    requires { at + 21 ≤ length room.old }
    ensures { Short 21 room.old at (whole_shown z) result room.new }
{
    let code = signed::code(z);
    if code % 2 == 0 {
        return put_number(room, at, code / 2);
    }
    put_named(room, at, b"-", code / 2 + 1)
}

// Nothing is put of a time that has no form.
fn put_time(room: &mut [u8], at: usize, time: i64) -> usize
    requires { at + 17 ≤ length room.old }
    ensures { Short 17 room.old at (stamp_shown time) result room.new }
{
    shown::write_time(room, at, time).unwrap_or(at)
}

// A word and a time.
pub(crate) fn put_timed(room: &mut [u8], at: usize, word: &[u8], time: i64) -> usize
    requires { at + length word.now + 17 ≤ length room.old }
    ensures { Short (length word.now + 17) room.old at (timed word.now time) result room.new }
{
    let a = put_word(room, at, word);
    put_time(room, a, time)
}

// Where a record stands, behind a word that names it.
pub(crate) fn put_record(room: &mut [u8], at: usize, word: &[u8], stamped: Stamped) -> usize
    requires { at + length word.now + 51 ≤ length room.old }
    ensures { Short (length word.now + 51) room.old at (record_shown word.now stamped) result room.new }
{
    let a = put_named(room, at, word, stamped.line);
    put_named(room, a, b" processor ", stamped.processor)
}
