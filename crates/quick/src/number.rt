// A whole number or a time that starts at the cursor: a size read behind its sign, and the byte that is due behind it. Or one of the quoted
// descriptors.
ghost use Rattle.std.specs.Prelude.{◌≡◌, ◌+◌, ◌^◌, ◌<◌, ◌≤◌, length, get_or};
ghost use Rattle.paper.specs.Forms.{whole_of, time_of, text_of};
ghost use Rattle.field.specs.Cursor.{read_as};
ghost use Rattle.quick.specs.Words.{NumberAt, FieldAt, start_at, Within, signed_by, Inside, stopped_by};

use crate::{digits, stamp};
use field::Form;

// "negated after the digits are read"; nothing is good as "-0".
fn with_sign(minus: bool, size: Option<(u64, usize)>) -> Option<(i64, usize)>
    requires { Within size }
    ensures { result ≡ signed_by minus size }
{
    let (m, end) = size?;
    let z = m as i64;
    if !minus {
        return Some((z, end));
    }
    if m == 0 { None } else { Some((-z, end)) }
}

fn behind(minus: bool, at: usize) -> usize
    requires { at < 2 ^ 63 }
    ensures { result ≡ start_at minus at }
{
    if minus { at + 1 } else { at }
}

fn signed_whole(s: &[u8], at: usize) -> Option<(i64, usize)>
    requires { at + 11 ≤ length s.now }
    ensures { NumberAt whole_of 10 s.now at result }
{
    let minus = s[at] == b'-';
    let from = behind(minus, at);
    with_sign(minus, digits::run(s, from))
}

// The two ways, and no place behind the sign, are quicker where the size is read by a call.
fn signed_time(s: &[u8], at: usize) -> Option<(i64, usize)>
    requires { at + 18 ≤ length s.now }
    ensures { NumberAt time_of 17 s.now at result }
{
    if s[at] == b'-' {
        return with_sign(true, stamp::time_size(s, at + 1));
    }
    with_sign(false, stamp::time_size(s, at))
}

// A number, if the byte that is due stands behind it.
fn stopped(s: &[u8], x: Option<(i64, usize)>, stop: u8) -> Option<(i64, usize)>
    requires { Inside s.now x }
    ensures { result ≡ stopped_by s.now stop x }
{
    let (v, end) = x?;
    if s[end] == stop {
        Some((v, end + 1))
    } else {
        None
    }
}

// One digit, behind which the byte that is due was seen.
fn digit(s: &[u8], at: usize, stop: u8) -> Option<(i64, usize)>
    requires { (at + 2 ≤ length s.now) × (get_or s.now (at + 1) 0 ≡ stop) }
    ensures { FieldAt whole_of 11 s.now at stop result }
{
    let b = u64::from(s[at]);
    if digits::no_digit(b) {
        return None;
    }
    with_sign(false, Some((b - 48, at + 2)))
}

// One digit alone is so frequent that it is asked for first.
pub(crate) fn whole(s: &[u8], at: usize, stop: u8) -> Option<(i64, usize)>
    requires { at + 11 ≤ length s.now }
    ensures { FieldAt whole_of 11 s.now at stop result }
{
    if s[at + 1] == stop {
        return digit(s, at, stop);
    }
    stopped(s, signed_whole(s, at), stop)
}

pub(crate) fn time(s: &[u8], at: usize, stop: u8) -> Option<(i64, usize)>
    requires { at + 18 ≤ length s.now }
    ensures { FieldAt time_of 18 s.now at stop result }
{
    stopped(s, signed_time(s, at), stop)
}

// This text, and the byte that is due behind it.
fn quoted(s: &[u8], at: usize, text: &[u8], stop: u8) -> Option<(i64, usize)>
    requires { at + length text.now < length s.now }
    ensures { FieldAt (text_of text.now) (length text.now + 1) s.now at stop result }
{
    let end = at + text.len();
    if &s[at..end] == text {
        stopped(s, Some((0, end)), stop)
    } else {
        None
    }
}

pub(crate) fn in_form(form: Form, s: &[u8], at: usize, stop: u8) -> Option<(i64, usize)>
    requires { at + 18 ≤ length s.now }
    ensures { FieldAt (read_as form) 18 s.now at stop result }
{
    match form {
        Form::Whole => whole(s, at, stop),
        Form::Time => time(s, at, stop),
        Form::TimesQuoted => quoted(s, at, b"\"%d%lf\"", stop),
        Form::NumbersQuoted => quoted(s, at, b"\"%d%d\"", stop),
    }
}
