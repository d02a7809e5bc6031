// The end of a line that is not read any further, from a cursor behind its six fields on: where the next line starts, or doubt, which is
// crate line's to settle. Apart from crate quick because it reads no numbers and needs nothing of what does.
#![tactic(auto)]

ghost use Rattle.std.specs.Prelude.{◌≡◌, ℕ, ◌+◌, ◌≤◌, List, true, false, length};
ghost use Rattle.tail.specs.Ends.{Clear, EndsAt};

// The line ends here.
fn none(n: usize, at: usize) -> Option<usize>
    ensures { (s : List ℕ) → EndsAt s true at n result }
{
    if n == 0 { Some(at) } else { None }
}

// No LF among sixteen bytes. Every byte is asked, with no way out before the last, so that they are compared all at once.
fn clear(s: &[u8], at: usize) -> bool
    requires { at + 16 ≤ length s.now }
    ensures { result ≡ true → Clear s.now at (at + 16) }
{
    let mut hit = false;
    for j in 0..16 {
        hit |= s[at + j] == b'\n';
    }
    !hit
}

// Over as many bytes without an LF as can be stepped over by sixteen.
fn skip(s: &[u8], at: usize) -> usize
    requires { at ≤ length s.now }
    ensures { Clear s.now at result }
{
    let mut i = at;
    while 16 <= s.len() - i {
        if !clear(s, i) {
            return i;
        }
        i += 16;
    }
    i
}

// "a space and at least one more byte must follow", and then an LF
fn some(s: &[u8], at: usize, n: usize) -> Option<usize>
    ensures { EndsAt s.now false at n result }
{
    if n == 0 || s.len() <= at || s[at] == b'\n' {
        return None;
    }
    let end = octets::find(s, skip(s, at), b'\n');
    if end == s.len() {
        return None;
    }
    Some(end + 1)
}

// "with a data count above zero a space and at least one more byte must follow, otherwise LF. Its other bytes are free."
pub fn read_end(s: &[u8], ended: bool, at: usize, n: usize) -> Option<usize>
    ensures { EndsAt s.now ended at n result }
{
    if ended { none(n, at) } else { some(s, at, n) }
}
