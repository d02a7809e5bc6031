// The judging call: a trace, a latency table and what the caller names in, the answer out, with the corrected times and, if asked
// for, the corrected trace in what the caller lent. Refusals come in the paper's order: how far the call comes is said by crate
// seek, 16 and acceptance stand in conclude.rt. Nothing lent is touched before all of them are decided.
#![tactic(auto)]

mod conclude;

ghost use Rattle.std.specs.Prelude.{◌≡◌};
ghost use Rattle.paper.specs.Answer.{judge};
ghost use Rattle.judge.specs.Call.{inputs, outcome};

use paper::{Answer, Asked};

pub fn judge(
    trace: &[u8],
    latencies: &[u32],
    asked: Asked,
    times: &mut [i64],
    wanted: bool,
    room: &mut [u8],
) -> Answer
    ensures { outcome result times.new room.new ≡ judge (inputs trace.now latencies.now asked times.old wanted room.old) }
{
    let mut store = store::empty();
    let mut sends = seek::places();
    let mut new = seek::blanks();
    let reached = seek::seek(
        trace,
        latencies,
        asked,
        times.len(),
        &mut store,
        &mut sends,
        &mut new,
    );
    conclude::conclude(reached, trace, &store, &new, times, wanted, room)
}
