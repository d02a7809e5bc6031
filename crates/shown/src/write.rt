// The parts of a time that is written: its sign, its whole seconds, a point and six digits.
ghost use Rattle.std.specs.Prelude.{◌≡◌, ◌++◌, ◌+◌, ◌/◌, ◌≤◌, ◌<◌, ◌^◌, length, nat_abs};
ghost use Rattle.std.proofs.lemmas.List.Edits.{sets};
ghost use Rattle.paper.specs.Forms.{at_most, fixed, places_from, size_shown};
ghost use Rattle.forms.specs.Sizes.{sign_shown};
ghost use Rattle.shown.specs.Writes.{WordPut};

use crate::Unput;

// The size of a time that the format holds.
#[tactic(auto, unfolding(paper::specs::Forms::at_most))]
pub(crate) fn size_of(time: i64) -> Option<u64>
    ensures { result ≡ at_most 999999999999999 (Some (nat_abs time)) }
{
    let size = time.unsigned_abs();
    if 999_999_999_999_999 < size {
        return None;
    }
    Some(size)
}

// How many digits n has.
fn places(n: u64) -> usize
    requires { n < 10 ^ 9 }
    ensures { result ≡ places_from 8 n }
{
    let mut power: u64 = 10;
    for k in 1..9 {
        if n < power {
            return k;
        }
        power *= 10;
    }
    9
}

// The last k digits of n, from the right to the left.
fn put_digits(room: &mut [u8], at: usize, k: usize, n: u64)
    requires { at + k ≤ length room.old }
    ensures { room.new ≡ sets room.old at (fixed k n) }
{
    let mut rest = n;
    for i in (0..k).rev() {
        room[at + i] = (rest % 10) as u8 + b'0';
        rest /= 10;
    }
}

fn put_size(room: &mut [u8], at: usize, k: usize, size: u64)
    requires { (k ≡ places_from 8 (size / 1000000)) × (at + k + 7 ≤ length room.old) }
    ensures { room.new ≡ sets room.old at (size_shown size) }
{
    put_digits(room, at, k, size / 1_000_000);
    room[at + k] = b'.';
    put_digits(room, at + k + 1, 6, size % 1_000_000);
}

fn put_sign(room: &mut [u8], at: usize, minus: bool)
    requires { at < length room.old }
    ensures { room.new ≡ sets room.old at (sign_shown minus) }
{
    if minus {
        room[at] = b'-';
    }
}

fn sign_length(minus: bool) -> usize
    ensures { result ≡ length (sign_shown minus) }
{
    usize::from(minus)
}

// How many bytes a sign and a size take.
pub(crate) fn signed_length(minus: bool, size: u64) -> usize
    requires { size ≤ 999999999999999 }
    ensures { result ≡ length (sign_shown minus ++ size_shown size) }
{
    let k = places(size / 1_000_000);
    let sign = sign_length(minus);
    sign + k + 7
}

// A time by its sign and its size, which are written only where there is room for both.
pub(crate) fn put_signed(room: &mut [u8], at: usize, minus: bool, size: u64) -> Result<usize, Unput>
    requires { size ≤ 999999999999999 }
    ensures { WordPut room.old at (sign_shown minus ++ size_shown size) result room.new }
{
    if room.len() < at {
        return Err(Unput::NoRoom);
    }
    let k = places(size / 1_000_000);
    let sign = sign_length(minus);
    let n = sign + k + 7;
    if room.len() - at < n {
        return Err(Unput::NoRoom);
    }
    put_sign(room, at, minus);
    put_size(room, at + sign, k, size);
    Ok(at + n)
}
