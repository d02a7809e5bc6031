// "Next the record type (7 or passed over), event not handled (8), event type (7 or passed over)".
ghost use Rattle.std.specs.Prelude.{◌≡◌};
ghost use Rattle.paper.specs.Line as paper;
ghost use Rattle.paper.specs.Line.{good_end, step_over, unlisted, begun, six};
ghost use Rattle.field.specs.Cursor.{rest_at};
ghost use Rattle.line.specs.Sorting.{standing_in};

use crate::listed;
use paper::{Choice, Fault, Head, Line, Standing};

// "with a data count above zero a space and at least one more byte must follow, otherwise LF"
fn good_end(l: &[u8], next: usize, count: usize) -> bool
    ensures { result ≡ good_end count (rest_at l.now next) }
{
    if count == 0 {
        l.len() < next
    } else {
        next < l.len()
    }
}

// The field that makes a line unlisted: the record type, which is looked at first, or else the event type.
fn unknown(h: Head) -> usize
    ensures { result ≡ paper.unknown h }
{
    if parts::listed_kind(h.kind) { 1 } else { 0 }
}

pub(crate) fn step_over(choice: Choice, h: Head) -> Line
    ensures { result ≡ step_over choice h }
{
    match choice {
        Choice::Strict => Line::Refused(Fault::Unlisted, Some(unknown(h))),
        Choice::Lenient => Line::Passed,
    }
}

// "For an unlisted line its end (5) is checked before 7 or passing."
fn over(choice: Choice, l: &[u8], h: Head, next: usize) -> Line
    ensures { result ≡ unlisted choice h (rest_at l.now next) }
{
    if good_end(l, next, h.count) {
        step_over(choice, h)
    } else {
        Line::Refused(Fault::Form, Some(6))
    }
}

// The event of a record type that is not listed is not looked at, nor that of a statistics record: "Their event field may be any whole
// number".
pub(crate) fn standing(kind: i64, event: i64) -> Standing
    ensures { result ≡ standing_in kind event }
{
    if !parts::listed_kind(kind) {
        return Standing::Unlisted;
    }
    if parts::is_statistics(kind) {
        Standing::Listed
    } else {
        events::standing(event)
    }
}

pub(crate) fn sort_line(choice: Choice, l: &[u8], h: Head, next: usize) -> Line
    ensures { result ≡ begun choice (six h (rest_at l.now next)) }
{
    match standing(h.kind, h.event) {
        Standing::Listed | Standing::Message => listed::listed_line(l, h, next),
        Standing::NotHandled => Line::Refused(Fault::NotHandled, Some(1)),
        Standing::Unlisted => over(choice, l, h, next),
    }
}
