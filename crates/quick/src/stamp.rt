// The size of a time: after the seconds, one test of all bytes and one sum.
ghost use Rattle.std.specs.Prelude.{◌≡◌, false, ◌+◌, ◌≤◌, length};
ghost use Rattle.paper.specs.Forms.{time_size};
ghost use Rattle.quick.specs.Stamps.{Point, Six, six_of, MicrosAt};
ghost use Rattle.quick.specs.Words.{SizeAt};

use crate::digits;

// Anything but a point and six digits. Every byte is asked, with no way out before the last.
fn no_micros(point: u8, a: u8, b: u8, c: u8, d: u8, e: u8, f: u8) -> bool
    ensures { result ≡ false → Point point a b c d e f }
{
    (point != 46)
        | (a < 48)
        | (57 < a)
        | (b < 48)
        | (57 < b)
        | (c < 48)
        | (57 < c)
        | (d < 48)
        | (57 < d)
        | (e < 48)
        | (57 < e)
        | (f < 48)
        | (57 < f)
}

// The six digits' values, with 48 for each of them taken off at once.
fn six(a: u8, b: u8, c: u8, d: u8, e: u8, f: u8) -> u64
    requires { Six a b c d e f }
    ensures { result ≡ six_of a b c d e f }
{
    u64::from(a) * 100000
        + u64::from(b) * 10000
        + u64::from(c) * 1000
        + u64::from(d) * 100
        + u64::from(e) * 10
        + u64::from(f)
        - 5333328
}

// "a point, six digits"
fn micros(s: &[u8], at: usize) -> Option<u64>
    requires { at + 7 ≤ length s.now }
    ensures { MicrosAt s.now at result }
{
    let point = s[at];
    let a = s[at + 1];
    let b = s[at + 2];
    let c = s[at + 3];
    let d = s[at + 4];
    let e = s[at + 5];
    let f = s[at + 6];
    if no_micros(point, a, b, c, d, e, f) {
        return None;
    }
    Some(six(a, b, c, d, e, f))
}

// "a whole part of 1 to 9 digits without a leading zero (a single 0 is good), a point, six digits"
pub(crate) fn time_size(s: &[u8], at: usize) -> Option<(u64, usize)>
    requires { at + 17 ≤ length s.now }
    ensures { SizeAt time_size 16 s.now at result }
{
    let (seconds, point) = digits::run(s, at)?;
    let rest = micros(s, point)?;
    Some((seconds * 1000000 + rest, point + 7))
}
