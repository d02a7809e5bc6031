// A word of a line, found by its separator.
ghost use Rattle.named.specs.Parts.{WordAt};

use crate::Span;

// The word that begins at `at`: an empty one at the line's end and past it.
pub fn word_at(line: &[u8], separator: u8, at: usize) -> Span
    ensures { WordAt separator line.now at result }
{
    let end = line.len();
    if end <= at {
        return Span { from: end, to: end };
    }
    let to = octets::find(line, at, separator);
    Span { from: at, to }
}
