// What a line of named arguments asks for, or which of them is bad or missing:
//
//     canary --choice strict|lenient --trace FILE --table FILE --levels PICL,USER,TRACE|off \
//         --statistics on|off --share N [--out FILE]
//
// Nothing has a default, and nothing is stepped over. The line's words stand apart by a separator: the program joins its arguments with
// a zero byte, which no argument has in it, and a case of the gate is a line with spaces.
#![tactic(auto)]

mod asking;
mod given;
mod turn;

ghost use Rattle.std.specs.Prelude.{◌≡◌};
ghost use Rattle.named.specs.Words.{words_of};
ghost use Rattle.named.specs.Parts.{cut, Within};
ghost use Rattle.flags.specs.Plan.{plan_of};
ghost use Rattle.flags.specs.Spans.{Planned};

use named::{Name, Span};
use paper::Asked;

// What is asked for: the files by their names, and a file for the written trace only if it is wanted.
#[derive(Clone, Copy)]
pub struct Wishes {
    pub asked: Asked,
    pub trace: Span,
    pub table: Span,
    pub out: Option<Span>,
}

// A word that is bad, or a name that is missing.
#[derive(Clone, Copy)]
pub enum Lack {
    Bad(Span),
    Missing(Name),
}

// The part of the line that a span is.
#[tactic(auto, unfolding(named::specs::Parts::cut))]
fn cut(line: &[u8], span: Span) -> &[u8]
    requires { Within line.now span }
    ensures { result.now ≡ cut line.now span }
{
    &line[span.from..span.to]
}

// A pair in a turn: a name, and the value behind it. A name at the end has an empty value, which is as bad as none. The loop jumps from
// pair to pair.
pub fn planned(line: &[u8], separator: u8) -> Result<Wishes, Lack>
    ensures { Planned line.now (plan_of (words_of separator line.now)) result }
{
    let mut given = given::nothing();
    let mut at = 0;
    while at < line.len() {
        let name = named::word_at(line, separator, at);
        let value = named::word_at(line, separator, name.to + 1);
        let Some(next) = turn::take_pair(line, given, name, value) else {
            return Err(Lack::Bad(name));
        };
        given = next;
        at = value.to + 1;
    }
    asking::conclude(line, given)
}
