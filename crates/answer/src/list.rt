// The answers of a call that fills a list.
ghost use Rattle.std.specs.Prelude.{◌≡◌};
ghost use Rattle.answer.specs.Answers.{unfilling, filling_in};

use crate::{nowhere, number};
use paper::{Fault, Filled, Site};

#[tactic(auto, unfolding(crate::specs::Answers::unfilling))]
pub fn unfilled(fault: Fault, site: Site) -> Filled
    ensures { result ≡ unfilling fault site }
{
    Filled {
        number: number(fault),
        line: site.line as u64,
        column: site.column as u64,
        filled: 0,
    }
}

// "then a list too short is 16": of a list with so many places that is to be filled with `count` items.
#[tactic(auto, unfolding(crate::specs::Answers::filling_in))]
pub fn filled_list(count: usize, places: usize) -> Filled
    ensures { result ≡ filling_in count places }
{
    if places < count {
        return unfilled(Fault::NoRoom, nowhere());
    }
    Filled {
        number: 0,
        line: 0,
        column: 0,
        filled: count as u64,
    }
}
