// Where a word of a line begins and where it ends: words stand apart by any number of blanks.
ghost use Rattle.std.specs.Prelude.{◌≡◌, ◌≤◌, length};
ghost use Rattle.rule.specs.Words.{is_blank};
ghost use Rattle.rule.specs.Cursor.{Starts, Ends};

// A space, a tab, or the carriage return of a line that ends with two bytes.
#[tactic(auto, unfolding(crate::specs::Words::is_blank))]
fn is_blank(b: u8) -> bool
    ensures { result ≡ is_blank b }
{
    matches!(b, b' ' | b'\t' | b'\r')
}

// The first place from `at` on that is no blank.
pub(crate) fn word_start(line: &[u8], at: usize) -> usize
    requires { at ≤ length line.now }
    ensures { Starts line.now at result }
{
    for i in at..line.len() {
        if !is_blank(line[i]) {
            return i;
        }
    }
    line.len()
}

// The first blank from `at` on.
pub(crate) fn word_end(line: &[u8], at: usize) -> usize
    requires { at ≤ length line.now }
    ensures { Ends line.now at result }
{
    for i in at..line.len() {
        if is_blank(line[i]) {
            return i;
        }
    }
    line.len()
}
