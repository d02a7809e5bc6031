// What was given, at the line's end: the first name that is missing, or what is asked for.
ghost use Rattle.std.specs.Prelude.{◌≡◌};
ghost use Rattle.flags.specs.Plan.{asked_of, concluded};
ghost use Rattle.flags.specs.Spans.{Planned};
ghost use Rattle.flags.specs.Parts.{Held, values_in};

use crate::given::Given;
use crate::{Lack, Wishes, cut};
use named::{Name, Wanted};
use paper::Asked;

// Levels that are not asked for are 0 with the three numbers 0. No pair with levels of a bad form is taken, and what would come of one
// is refused.
#[tactic(auto, unfolding(crate::specs::Plan::asked_of))]
fn asked_of(choice: u32, levels: Option<Wanted>, statistics: u32, share: u32) -> Asked
    ensures { result ≡ asked_of choice levels statistics share }
{
    let off = Asked {
        choice,
        levels: 0,
        picl: 0,
        user: 0,
        trace: 0,
        statistics,
        share,
    };
    match levels {
        Some(Wanted::Off) => off,
        Some(Wanted::Expected(picl, user, trace)) => Asked {
            levels: 1,
            picl,
            user,
            trace,
            ..off
        },
        None => Asked { choice: 0, ..off },
    }
}

pub(crate) fn conclude(line: &[u8], given: Given) -> Result<Wishes, Lack>
    requires { Held line.now given }
    ensures { Planned line.now (concluded (values_in line.now given)) result }
{
    let Some(choice) = given.choice else {
        return Err(Lack::Missing(Name::Choice));
    };
    let Some(trace) = given.trace else {
        return Err(Lack::Missing(Name::Trace));
    };
    let Some(table) = given.table else {
        return Err(Lack::Missing(Name::Table));
    };
    let Some(levels) = given.levels else {
        return Err(Lack::Missing(Name::Levels));
    };
    let Some(statistics) = given.statistics else {
        return Err(Lack::Missing(Name::Statistics));
    };
    let Some(share) = given.share else {
        return Err(Lack::Missing(Name::Share));
    };
    let asked = asked_of(
        named::choice_of(cut(line, choice)),
        named::levels_of(cut(line, levels)),
        named::switch_of(cut(line, statistics)),
        named::share_of(cut(line, share)),
    );
    Ok(Wishes {
        asked,
        trace,
        table,
        out: given.out,
    })
}
