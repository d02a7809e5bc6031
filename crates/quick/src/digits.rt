// Digits without a leading zero.
ghost use Rattle.std.specs.Prelude.{◌≡◌, not, ◌+◌, ◌≤◌, length};
ghost use Rattle.paper.specs.Forms.{is_digit};
ghost use Rattle.forms.specs.Sizes.{whole_part};
ghost use Rattle.quick.specs.Words.{SizeAt};

pub(crate) fn no_digit(b: u64) -> bool
    ensures { result ≡ not (is_digit b) }
{
    (b < 48) | (57 < b)
}

// One to nine digits from the cursor on. Where more follow, behind a 0 or behind nine, the caller misses the byte that is due.
pub(crate) fn run(s: &[u8], at: usize) -> Option<(u64, usize)>
    requires { at + 10 ≤ length s.now }
    ensures { SizeAt whole_part 9 s.now at result }
{
    let first = u64::from(s[at]);
    if no_digit(first) {
        return None;
    }
    if first == 48 {
        return Some((0, at + 1));
    }
    let most = at + 9;
    let mut value = first - 48;
    for i in at + 1..most {
        let b = u64::from(s[i]);
        if no_digit(b) {
            return Some((value, i));
        }
        value = value * 10 + (b - 48);
    }
    Some((value, most))
}
