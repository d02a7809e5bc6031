// How far a call comes, by crate reach, with the room that only the work needs made here: who calls lends the store, the places of the
// sends and the times, which it looks into afterwards. Calls that all go through this function have the rounds once in what is
// compiled, over arrays of the function that the rounds stand in; called from two places, reach had them behind five pointers, and the
// rounds took a third longer.
#![tactic(auto)]

ghost use Rattle.std.specs.Prelude.{◌≡◌, length};
ghost use Rattle.clearance.specs.Clearance.{given_of};
ghost use Rattle.store.specs.Layout.{capacity};
ghost use Rattle.seek.specs.Sought.{Sought};

use answer::Counts;
use paper::Asked;
use reach::Unreached;

// ---- A place, a gap and a time for each record that a call may list, each array made by a function of its own, so that no other proof meets
// so many zeros.

pub fn places() -> [u32; 2048]
    ensures { length result ≡ 2048 }
{
    [0; 2048]
}

fn gaps() -> [u64; 2048]
    ensures { length result ≡ 2048 }
{
    [0; 2048]
}

pub fn blanks() -> [i64; 2048]
    ensures { length result ≡ 2048 }
{
    [0; 2048]
}

// `lent` is how many times the caller lends.
pub fn seek(
    trace: &[u8],
    latencies: &[u32],
    asked: Asked,
    lent: usize,
    store: &mut [u32],
    sends: &mut [u32],
    times: &mut [i64],
) -> Result<Counts, Unreached>
    ensures { Sought (given_of trace.now latencies.now asked lent) (capacity store.old) (length sends.old) (length times.old) result store.new sends.new times.new }
{
    let mut before = places();
    let mut gap = gaps();
    let mut latency = places();
    let mut spare = blanks();
    reach::reach(
        trace,
        latencies,
        asked,
        lent,
        store,
        sends,
        &mut before,
        &mut gap,
        &mut latency,
        times,
        &mut spare,
    )
}
