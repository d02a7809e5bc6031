// The public call that tells why a time moved: a trace, a latency table, what the caller names and the place of a record in, the chain of
// that record in the list that the caller lent. How far the call comes is said by crate seek; 22, 16 and the list stand in conclude.rt.
#![tactic(auto)]

mod conclude;
mod exact;

ghost use Rattle.std.specs.Prelude.{◌≡◌};
ghost use Rattle.paper.specs.Chain.{chain};
ghost use Rattle.paper.specs.Filling.{query, filling};

use paper::{Asked, Filled};

pub fn chain(trace: &[u8], latencies: &[u32], asked: Asked, place: u64, list: &mut [u64]) -> Filled
    ensures { filling result list.new ≡ chain (query trace.now latencies.now asked) place list.old }
{
    let mut store = store::empty();
    let mut sends = seek::places();
    let mut times = seek::blanks();
    let reached = seek::seek(
        trace,
        latencies,
        asked,
        paper::MOST,
        &mut store,
        &mut sends,
        &mut times,
    );
    conclude::conclude(
        reached,
        latencies,
        asked.share,
        place,
        &store,
        &times,
        &mut sends,
        list,
    )
}
