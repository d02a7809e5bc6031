// The clock condition settled: the engine's rounds, told as an answer that both lent slices hold. specs/ says what a call leaves behind,
// in terms of the paper's `settle`.
#![tactic(auto)]

ghost use Rattle.std.specs.Prelude.{◌≡◌};
ghost use Rattle.clock.specs.Promise.{outcome, outcome_of};

use engine::{Unsettled, Waits};

// The least sound times of the records whose originals are in `times`, into `times` and `spare`; where there are none, nothing is
// left in them.
pub fn settle(waits: Waits, times: &mut [i64], spare: &mut [i64]) -> Result<usize, Unsettled>
    ensures { outcome result times.new spare.new ≡ outcome_of waits.entry.before.now waits.entry.gap.now waits.entry.send.now waits.entry.latency.now times.old spare.old }
{
    match engine::run_rounds(waits, times, spare) {
        Ok(rounds) => Ok(rounds),
        Err(Unsettled::Misfit) => Err(Unsettled::Misfit),
        Err(Unsettled::Impossible) => {
            times.fill(0);
            spare.fill(0);
            Err(Unsettled::Impossible)
        }
    }
}
