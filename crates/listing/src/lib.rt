// The messages of an accepted trace, as far as the list of pairs is not touched: how far the call comes is said by crate seek, the
// messages stand in lent numbers, two to a message, and the answer says how many of them the list is to be filled with. Who has
// the list fills it from there, by `pair_of`.
#![tactic(auto)]

ghost use Rattle.std.specs.Prelude.{◌≡◌, length};
ghost use Rattle.mail.specs.Mail.{pair_at};
ghost use Rattle.paper.specs.Filling.{query};
ghost use Rattle.listing.specs.Plan.{Planned, WithSends, ConcludedBy};

use answer::Counts;
use paper::{Asked, Fault, Filled, Pair};
use reach::Unreached;

// Two numbers for each record that a call may list. A function of its own makes the array, so that no other proof meets so many zeros.
pub fn blank() -> [u64; 4096]
    ensures { length result ≡ 4096 }
{
    [0; 4096]
}

pub fn pair_of(numbers: &[u64; 4096], k: usize) -> Pair
    ensures { result ≡ pair_at numbers.now k }
{
    mail::pair_at(numbers, k)
}

// "A refused trace keeps its refusal; .. then a list too short is 16", of a list with so many places.
fn conclude(
    reached: Result<Counts, Unreached>,
    sends: &[u32],
    places: usize,
    numbers: &mut [u64],
) -> Filled
    requires { WithSends reached sends.now }
    ensures { ConcludedBy reached sends.now places (length numbers.old) result numbers.new }
{
    match reached {
        Ok(counts) => {
            let count = mail::gather(&sends[..counts.listed], numbers);
            answer::filled_list(count, places)
        }
        Err(why) => match why {
            Unreached::Refused(refusal) => answer::unfilled(refusal.fault, refusal.site),
            // never: the slices of a call are made for as many records as it may list
            Unreached::Misfit => answer::unfilled(Fault::NoTimes, answer::nowhere()),
        },
    }
}

// `places` is how long the list is.
pub fn plan(
    trace: &[u8],
    latencies: &[u32],
    asked: Asked,
    places: usize,
    numbers: &mut [u64; 4096],
) -> Filled
    ensures { Planned (query trace.now latencies.now asked) places result numbers.new }
{
    let mut store = store::empty();
    let mut sends = seek::places();
    let mut new = seek::blanks();
    let reached = seek::seek(
        trace,
        latencies,
        asked,
        paper::MOST,
        &mut store,
        &mut sends,
        &mut new,
    );
    conclude(reached, &sends, places, numbers)
}
