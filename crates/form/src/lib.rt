// One field read: document 01, "Whole number" and "Time". What the forms mean is the crate paper's to say (specs/Forms.antt); here
// stands the code that reads them, and its public functions take anything.
#![tactic(auto)]

mod read;

ghost use Rattle.std.specs.Prelude.{◌≡◌};
ghost use Rattle.paper.specs.Forms.{whole_of, time_of};

pub use read::has_minus;

// "Whole number: optional minus, digits, no leading zero, no "-0", size at most 999,999,999."
pub fn read_whole(s: &[u8]) -> Option<i64>
    ensures { result ≡ whole_of s.now }
{
    if read::has_minus(s) {
        read::with_sign(true, read::whole_size(&s[1..]))
    } else {
        read::with_sign(false, read::whole_size(s))
    }
}

// "Time: optional minus, a whole part of 1 to 9 digits without a leading zero (a single 0 is good), a point, six digits."
pub fn read_time(s: &[u8]) -> Option<i64>
    ensures { result ≡ time_of s.now }
{
    if read::has_minus(s) {
        read::with_sign(true, read::time_size(&s[1..]))
    } else {
        read::with_sign(false, read::time_size(s))
    }
}
