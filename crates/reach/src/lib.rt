// How far a call comes: the refusals from 1 to 15, and 17 and 19, or the times. The records stay in the store, the places of their sends and their
// times in two slices, for whatever ending the call has; nothing is looked at or touched that a caller gets to see.
#![tactic(auto)]

mod lines;

ghost use Rattle.std.specs.Prelude.{◌≡◌, [], ◌∷◌, length};
ghost use Rattle.paper.specs.Answer.{most};
ghost use Rattle.store.specs.Layout.{capacity};
ghost use Rattle.clearance.specs.Clearance.{given_of};
ghost use Rattle.reach.specs.Reach.{fits, ReachedBy};
ghost use Rattle.reach.specs.Lines.{fault_as, unsolved_as};

use answer::Counts;
use paper::{Asked, Fault, Refusal};
use solve::Unsolved;

// Why a call does not come as far as the times.
#[derive(Clone, Copy)]
pub enum Unreached {
    Refused(Refusal),
    // the slices are not made for as many records as a call may list
    Misfit,
}

impl From<Refusal> for Unreached {
    ghost use Rattle.reach.specs.declared.Unreached.TheVariants.{Refused};

    ghost from_gives = { λ refusal e. e ≡ Refused refusal };

    fn from(refusal: Refusal) -> Unreached {
        Unreached::Refused(refusal)
    }
}

// A fault of the call, or of the trace as a whole.
impl From<Fault> for Unreached {
    ghost from_gives = { λ fault e. e ≡ fault_as fault };

    fn from(fault: Fault) -> Unreached {
        Unreached::Refused(Refusal {
            fault,
            site: answer::nowhere(),
        })
    }
}

impl From<Unsolved> for Unreached {
    ghost from_gives = { λ unsolved e. e ≡ unsolved_as unsolved };

    fn from(unsolved: Unsolved) -> Unreached {
        match unsolved {
            Unsolved::Refused(refusal) => Unreached::Refused(refusal),
            Unsolved::Impossible => Unreached::from(Fault::NoTimes),
            // never: each slice has a place for each record that was read
            Unsolved::Misfit => Unreached::Misfit,
        }
    }
}

// The store and every slice are made for n records.
fn fit(
    n: usize,
    room: usize,
    times: usize,
    sends: usize,
    before: usize,
    gap: usize,
    latency: usize,
    spare: usize,
) -> bool
    ensures { result ≡ fits n room (times ∷ sends ∷ before ∷ gap ∷ latency ∷ spare ∷ []) }
{
    room == n && times == room && engine::all_are(room, sends, before, gap, latency, spare)
}

// `places` is how many times the caller lends. Of the other slices `before`, `gap`, `latency` and `spare` are room for the work.
pub fn reach(
    trace: &[u8],
    latencies: &[u32],
    asked: Asked,
    places: usize,
    store: &mut [u32],
    sends: &mut [u32],
    before: &mut [u32],
    gap: &mut [u64],
    latency: &mut [u32],
    times: &mut [i64],
    spare: &mut [i64],
) -> Result<Counts, Unreached>
    ensures { ReachedBy (fits (most (given_of trace.now latencies.now asked places)) (capacity store.old) (length times.old ∷ length sends.old ∷ length before.old ∷ length gap.old ∷ length latency.old ∷ length spare.old ∷ [])) (given_of trace.now latencies.now asked places) result store.new sends.new times.new }
{
    if !fit(
        paper::MOST,
        store::capacity(store),
        times.len(),
        sends.len(),
        before.len(),
        gap.len(),
        latency.len(),
        spare.len(),
    ) {
        return Err(Unreached::Misfit);
    }
    let choice = clearance::check(trace, latencies, asked, places)?;
    lines::read(
        choice, asked, trace, latencies, store, sends, before, gap, latency, times, spare,
    )
}
