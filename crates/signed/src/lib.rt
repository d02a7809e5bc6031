// Signed numbers tested and turned into plain ones, in functions so small that no other crate's proof meets a number's bits.
#![tactic(auto)]

ghost use Rattle.std.specs.Prelude.{◌≡◌};
ghost use Rattle.std.specs.Int.Signed.{lt_z};
ghost use Rattle.paper.specs.Tests.{eq_z};
ghost use Rattle.paper.specs.Gaps.{apart};
ghost use Rattle.signed.specs.Naturals.{size_of, natural_of};
ghost use Rattle.signed.specs.Codes.{code_of, decoded};

pub fn same(a: i64, b: i64) -> bool
    ensures { result ≡ eq_z a b }
{
    a == b
}

pub fn earlier(a: i64, b: i64) -> bool
    ensures { result ≡ lt_z a b }
{
    a < b
}

// "0 or more"
pub fn size(z: i64) -> Option<usize>
    ensures { result ≡ size_of z }
{
    usize::try_from(z).ok()
}

// "0 to most"
pub fn up_to(z: i64, most: usize) -> Option<usize>
    ensures { result ≡ natural_of most z }
{
    let n = size(z)?;
    if most < n {
        return None;
    }
    Some(n)
}

// A signed number as a plain one.
pub fn code(z: i64) -> u64
    ensures { result ≡ code_of z }
{
    if 0 <= z {
        return z as u64 * 2;
    }
    (-1 - z) as u64 * 2 + 1
}

// The signed number of a code.
pub fn from_code(n: u64) -> i64
    ensures { result ≡ decoded n }
{
    let half = (n / 2) as i64;
    if n % 2 == 0 {
        return half;
    }
    -1 - half
}

// How far one code's number lies behind another's: even codes are of 0 and above, odd ones of the negative numbers.
fn between(earlier: u64, later: u64) -> u64
    ensures { result ≡ apart (decoded earlier) (decoded later) }
{
    if earlier % 2 == 0 {
        if later % 2 == 0 {
            return (later / 2).saturating_sub(earlier / 2);
        }
        return 0;
    }
    if later % 2 == 0 {
        return later / 2 + (earlier / 2 + 1);
    }
    (earlier / 2).saturating_sub(later / 2)
}

// How far a number lies behind an earlier one, 0 where it does not. No difference of two numbers of 64 bits is too large for it.
pub fn apart(earlier: i64, later: i64) -> u64
    ensures { result ≡ apart earlier later }
{
    between(code(earlier), code(later))
}
