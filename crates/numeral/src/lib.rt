// A number of 64 bits, written as document 01 has a whole number but for its size: a level that is expected may be any number, also one
// that no field of a trace can hold.
#![tactic(auto)]

ghost use Rattle.std.specs.Prelude.{◌≤◌, ◌^◌, ◌≡◌, true, false};
ghost use Rattle.paper.specs.Forms.{signed, digits_from, at_most};
ghost use Rattle.forms.specs.Sizes.{AtMost, whole_part};
ghost use Rattle.numeral.specs.Numeral.{numeral_of, natural_in};

// The number that the digits of s make, unless it is above `most`. A digit behind more than a tenth of 2 ^ 63
// makes more than 2 ^ 63.
fn read_digits(s: &[u8], most: u64) -> Option<u64>
    requires { most ≤ 2 ^ 63 }
    ensures { result ≡ at_most most (digits_from 0 s.now) }
{
    let mut value: u64 = 0;
    for b in s {
        if !b.is_ascii_digit() || 922_337_203_685_477_580 < value {
            return None;
        }
        value = value * 10 + u64::from(*b - b'0');
    }
    if most < value { None } else { Some(value) }
}

// Digits without a leading zero, a single 0 being good.
fn read_size(s: &[u8], most: u64) -> Option<u64>
    requires { most ≤ 2 ^ 63 }
    ensures { result ≡ at_most most (whole_part s.now) }
{
    if s.is_empty() {
        return None;
    }
    if s[0] != b'0' {
        return read_digits(s, most);
    }
    if s.len() == 1 { Some(0) } else { None }
}

// By the code of a signed number: the least one has no opposite.
fn with_minus(size: Option<u64>) -> Option<i64>
    requires { AtMost 9223372036854775808 size }
    ensures { result ≡ signed true size }
{
    let m = size?;
    let less_one = m.checked_sub(1)?;
    Some(signed::from_code(2 * less_one + 1))
}

fn without_minus(size: Option<u64>) -> Option<i64>
    requires { AtMost 9223372036854775807 size }
    ensures { result ≡ signed false size }
{
    let m = size?;
    Some(signed::from_code(2 * m))
}

pub fn read_number(s: &[u8]) -> Option<i64>
    ensures { result ≡ numeral_of s.now }
{
    if form::has_minus(s) {
        with_minus(read_size(&s[1..], 9_223_372_036_854_775_808))
    } else {
        without_minus(read_size(s, 9_223_372_036_854_775_807))
    }
}

// For what is never negative: a line, a share.
pub fn read_natural(s: &[u8]) -> Option<usize>
    ensures { result ≡ natural_in s.now }
{
    let z = read_number(s)?;
    signed::size(z)
}
