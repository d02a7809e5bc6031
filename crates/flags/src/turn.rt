// A pair of words taken: what is given with it, or that it is bad.
ghost use Rattle.std.specs.Prelude.{◌≡◌};
ghost use Rattle.named.specs.Parts.{Within};
ghost use Rattle.flags.specs.Parts.{Held, accepted, Turned};

use crate::given::Given;
use crate::{cut, given};
use named::{Name, Span};

// Not given before, with a value that was not forgotten and has the name's form.
#[tactic(auto, unfolding(crate::specs::Parts::accepted))]
fn accepts(given: Given, name: Name, value: &[u8]) -> bool
    ensures { result ≡ accepted given name value.now }
{
    given::span_of(given, name).is_none()
        && !named::is_forgotten(value)
        && named::is_good(name, value)
}

// The word in the name's place, and the word behind it.
pub(crate) fn take_pair(line: &[u8], given: Given, name: Span, value: Span) -> Option<Given>
    requires { Held line.now given × (Within line.now name × Within line.now value) }
    ensures { Turned line.now given name value result }
{
    match named::name_of(cut(line, name)) {
        Some(known) if accepts(given, known, cut(line, value)) => Some(given::with_span(
            given, known, value,
        )),
        _ => None,
    }
}
