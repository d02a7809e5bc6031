// A line read where it starts in its trace, as far as the crates quick and tail have no doubt.
ghost use Rattle.paper.specs.Line.{listed_line, unlisted};
ghost use Rattle.line.specs.Quick.{QuickAt, RestAt};

use crate::{listed, sort};
use paper::{Choice, Head, Line, Standing};

// "then 9, data (5), 10"
fn with_data(s: &[u8], h: Head, ended: bool, at: usize) -> Option<(Line, usize)>
    ensures { RestAt (listed_line h) s.now ended at result }
{
    let (values, next) = quick::read_data(s, ended, at, h.kind, h.count)?;
    Some((listed::with_values(h, values), next))
}

// "For an unlisted line its end (5) is checked before 7 or passing."
fn over(choice: Choice, s: &[u8], h: Head, ended: bool, at: usize) -> Option<(Line, usize)>
    ensures { RestAt (unlisted choice h) s.now ended at result }
{
    let next = tail::read_end(s, ended, at, h.count)?;
    Some((sort::step_over(choice, h), next))
}

// "Next the record type (7 or passed over), event not handled (8), event type (7 or passed over)"
pub(crate) fn sorted(choice: Choice, s: &[u8], at: usize) -> Option<(Line, usize)>
    ensures { QuickAt choice s.now at result }
{
    let (h, ended, next) = quick::read_six(s, at)?;
    match sort::standing(h.kind, h.event) {
        Standing::Listed | Standing::Message => with_data(s, h, ended, next),
        Standing::NotHandled => None,
        Standing::Unlisted => over(choice, s, h, ended, next),
    }
}
