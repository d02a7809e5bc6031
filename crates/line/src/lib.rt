// One line to what it comes to: refused, passed over, or listed. A line is given without its LF, or by the place where it starts. A refusal
// names the field that decides, and its column is looked for once, where that line is at hand.
#![tactic(auto)]

mod at;
mod listed;
mod sort;

ghost use Rattle.std.specs.Prelude.{◌≡◌};
ghost use Rattle.paper.specs.Columns.{column_in};
ghost use Rattle.paper.specs.Line.{line_of};
ghost use Rattle.line.specs.Quick.{QuickAt};

use paper::{Choice, Line};

pub fn read_line(choice: Choice, l: &[u8]) -> Line
    ensures { result ≡ line_of choice l.now }
{
    match fields::read_head(l) {
        Ok((h, next)) => sort::sort_line(choice, l, h, next),
        Err((fault, k)) => Line::Refused(fault, Some(k)),
    }
}

// By one cursor, or no answer: a line in doubt is for read_line.
pub fn quick_line(choice: Choice, s: &[u8], at: usize) -> Option<(Line, usize)>
    ensures { QuickAt choice s.now at result }
{
    at::sorted(choice, s, at)
}

// The column of what decides in a line that is refused, and 0 where no field does.
pub fn column(l: &[u8], spot: Option<usize>) -> usize
    ensures { result ≡ column_in l.now spot }
{
    match spot {
        Some(k) => begins::column(l, k),
        None => 0,
    }
}
