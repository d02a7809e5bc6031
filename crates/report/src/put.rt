// The report's lines, put into a room one behind the other.
ghost use Rattle.std.specs.Prelude.{◌+◌, ◌≤◌, length};
ghost use Rattle.report.specs.Report.{shown, named, numbered, verdict_shown, place_shown, refused_shown, accepted_shown};
ghost use Rattle.report.specs.Told.{pair_shown};
ghost use Rattle.report.specs.Put.{Put, Short};

use paper::Answer;

pub(crate) fn put_word(room: &mut [u8], at: usize, word: &[u8]) -> usize
    requires { at + length word.now ≤ length room.old }
    ensures { Put room.old at word.now result room.new }
{
    let n = octets::copy(word, &mut room[at..]);
    at + n
}

fn put_number(room: &mut [u8], at: usize, n: u64) -> usize
    requires { at + 20 ≤ length room.old }
    ensures { Short 20 room.old at (shown n) result room.new }
{
    let mut digits = [0u8; 20];
    let k = io::decimal(n, &mut digits);
    put_word(room, at, &digits[..k])
}

pub(crate) fn put_named(room: &mut [u8], at: usize, word: &[u8], n: u64) -> usize
    requires { at + length word.now + 20 ≤ length room.old }
    ensures { Short (length word.now + 20) room.old at (named word.now n) result room.new }
{
    let a = put_word(room, at, word);
    put_number(room, a, n)
}

// A word and a number, to the end of the line.
pub(crate) fn put_numbered(room: &mut [u8], at: usize, word: &[u8], n: u64) -> usize
    requires { at + length word.now + 21 ≤ length room.old }
    ensures { Short (length word.now + 21) room.old at (numbered word.now n) result room.new }
{
    let a = put_named(room, at, word, n);
    put_word(room, a, b"\n")
}

fn put_verdict(room: &mut [u8], verdict: u64) -> usize
    requires { 25 ≤ length room.old }
    ensures { Short 25 room.old 0 (verdict_shown verdict) result room.new }
{
    match verdict {
        1 => put_word(room, 0, b"verdict consistent\n"),
        2 => put_word(room, 0, b"verdict corrected\n"),
        _ => put_word(room, 0, b"verdict nothing to judge\n"),
    }
}

// Where a call is refused, to the end of the line.
pub(crate) fn put_place(room: &mut [u8], at: usize, line: u64, column: u64) -> usize
    requires { at + 55 ≤ length room.old }
    ensures { Put room.old at (place_shown line column) result room.new }
{
    let a = put_named(room, at, b" line ", line);
    put_numbered(room, a, b" column ", column)
}

pub(crate) fn put_refused(room: &mut [u8], number: u64, line: u64, column: u64) -> usize
    requires { 83 ≤ length room.old }
    ensures { Put room.old 0 (refused_shown number line column) result room.new }
{
    let a = put_named(room, 0, b"refused ", number);
    put_place(room, a, line, column)
}

pub(crate) fn put_pair(room: &mut [u8], sender: u64, receiver: u64) -> usize
    requires { 55 ≤ length room.old }
    ensures { Put room.old 0 (pair_shown sender receiver) result room.new }
{
    let a = put_named(room, 0, b"refused pair ", sender);
    put_numbered(room, a, b" ", receiver)
}

pub(crate) fn put_accepted(room: &mut [u8], answer: Answer) -> usize
    requires { 176 ≤ length room.old }
    ensures { Put room.old 0 (accepted_shown answer) result room.new }
{
    let a = put_verdict(room, answer.verdict);
    let b = put_numbered(room, a, b"listed ", answer.listed);
    let c = put_numbered(room, b, b"passed ", answer.passed);
    let d = put_numbered(room, c, b"matched ", answer.matched);
    let e = put_numbered(room, d, b"unreceived ", answer.unreceived);
    put_numbered(room, e, b"rounds ", answer.rounds)
}
