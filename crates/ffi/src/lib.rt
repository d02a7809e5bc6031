// The public calls as C functions, for the static library. include/cantuvesh.h declares them.
ghost use Rattle.std.specs.Prelude.{◌≡◌};
ghost use Rattle.paper.specs.Answer.{judge};
ghost use Rattle.paper.specs.Merging.{merge};
ghost use Rattle.paper.specs.Messages.{messages};
ghost use Rattle.paper.specs.Chain.{chain};
ghost use Rattle.judge.specs.Call.{inputs, outcome};
ghost use Rattle.merging.specs.Call as merging;
ghost use Rattle.paper.specs.Filling.{query, filling};

use paper::{Answer, Asked, Filled, Merged, Pair};

#[unsafe(no_mangle)]
pub extern "C" fn cantuvesh_judge(
    trace: &[u8],
    latencies: &[u32],
    asked: Asked,
    times: &mut [i64],
    wanted: bool,
    room: &mut [u8],
) -> Answer
    ensures { outcome result times.new room.new ≡ judge (inputs trace.now latencies.now asked times.old wanted room.old) }
{
    judge::judge(trace, latencies, asked, times, wanted, room)
}

#[unsafe(no_mangle)]
pub extern "C" fn cantuvesh_merge<'a>(
    first: &'a [u8],
    second: &'a [u8],
    choice: u32,
    room: &mut [u8],
) -> Merged
    ensures { merging.outcome result room.new ≡ merge (merging.merging first.now second.now choice room.old) }
{
    merging::merge(first, second, choice, room)
}

#[unsafe(no_mangle)]
pub extern "C" fn cantuvesh_chain(
    trace: &[u8],
    latencies: &[u32],
    asked: Asked,
    place: u64,
    list: &mut [u64],
) -> Filled
    ensures { filling result list.new ≡ chain (query trace.now latencies.now asked) place list.old }
{
    chain::chain(trace, latencies, asked, place, list)
}

// The only function here that has more than a call in it: the list is a slice of structs, of which no other crate takes a reference. All
// that has a branch in it is called.
#[unsafe(no_mangle)]
pub extern "C" fn cantuvesh_messages(
    trace: &[u8],
    latencies: &[u32],
    asked: Asked,
    list: &mut [Pair],
) -> Filled
    ensures { filling result list.new ≡ messages (query trace.now latencies.now asked) list.old }
{
    let mut numbers = listing::blank();
    let answer = listing::plan(trace, latencies, asked, list.len(), &mut numbers);
    let n = answer.filled as usize;
    let mut k = 0;
    while k < n {
        list[k] = listing::pair_of(&numbers, k);
        k = k + 1;
    }
    answer
}
