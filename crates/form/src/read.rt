// The parts of a field: its sign, and its size in one of the two forms.
ghost use Rattle.std.specs.Prelude.{◌≡◌, ◌≤◌, ◌<◌, ◌^◌, length};
ghost use Rattle.paper.specs.Forms.{has_minus, signed, digits_from, whole_size, time_size};
ghost use Rattle.forms.specs.Sizes.{AtMost, whole_part};

// The number that v makes with the digits of s after it. Nine digits behind nine do not fill a u64.
fn read_digits(s: &[u8], v: u64) -> Option<u64>
    requires { (length s.now ≤ 9) × (v < 10 ^ 9) }
    ensures { result ≡ digits_from v s.now }
{
    let mut value = v;
    for b in s {
        if !b.is_ascii_digit() {
            return None;
        }
        value = value * 10 + u64::from(*b - b'0');
    }
    Some(value)
}

// Digits without a leading zero, a single 0 being good: a whole number, and the part of a time before its point.
fn whole_part(s: &[u8]) -> Option<u64>
    requires { length s.now ≤ 9 }
    ensures { result ≡ whole_part s.now }
{
    if s.is_empty() {
        return None;
    }
    if s[0] != b'0' {
        return read_digits(s, 0);
    }
    if s.len() == 1 { Some(0) } else { None }
}

// Ten digits without a leading zero are above 999,999,999, and nine are not: the length alone decides.
pub(crate) fn whole_size(s: &[u8]) -> Option<u64>
    ensures { result ≡ whole_size s.now }
{
    if 9 < s.len() {
        return None;
    }
    whole_part(s)
}

// Six digits and the point before them are the last seven bytes, and what stands before these is the whole part.
pub(crate) fn time_size(s: &[u8]) -> Option<u64>
    ensures { result ≡ time_size s.now }
{
    let n = s.len();
    if n < 8 || 16 < n {
        return None;
    }
    let point = n - 7;
    if s[point] != b'.' {
        return None;
    }
    let seconds = whole_part(&s[..point])?;
    read_digits(&s[point + 1..], seconds)
}

pub fn has_minus(s: &[u8]) -> bool
    ensures { result ≡ has_minus s.now }
{
    s.starts_with(b"-")
}

// "Its meaning is signed microseconds": negated after the digits are read. Nothing is good as "-0".
pub(crate) fn with_sign(minus: bool, size: Option<u64>) -> Option<i64>
    requires { AtMost 999999999999999 size }
    ensures { result ≡ signed minus size }
{
    let m = size?;
    let z = m as i64;
    if !minus {
        return Some(z);
    }
    if m == 0 { None } else { Some(-z) }
}
