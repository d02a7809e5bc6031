// The chain that moved a record as text, a line to each of its records, the asked one first.
#![tactic(auto)]

mod cause;
mod single;

ghost use Rattle.std.specs.Prelude.{◌*◌, ◌≤◌, length};
ghost use Rattle.store.specs.Layout.{entries_in};
ghost use Rattle.report.specs.Put.{Short};
ghost use Rattle.reasons.specs.Reasons.{reasons_of, ReasonsInto};

// The lines of all records of the chain.
fn put_lines(
    store: &[u32],
    times: &[i64],
    before: &[u32],
    gap: &[u64],
    latency: &[u32],
    chain: &[u64],
    room: &mut [u8],
) -> usize
    requires { 256 * length chain.now ≤ length room.old }
    ensures { Short (256 * length chain.now) room.old 0 (reasons_of (entries_in store.now (length times.now)) times.now before.now gap.now latency.now chain.now) result room.new }
{
    let mut at = 0;
    for k in 0..chain.len() {
        at = single::put_reason(
            store,
            times,
            before,
            gap,
            latency,
            chain[k],
            &chain[k + 1..],
            room,
            at,
        );
    }
    at
}

// The text at the room's start, and its length: of the records in the store and their times, the records before them on their
// processors, the gaps to keep from those, the latencies from their sends, and the places of a chain. Where the room has no line for each,
// nothing is touched.
pub fn put_reasons(
    store: &[u32],
    times: &[i64],
    before: &[u32],
    gap: &[u64],
    latency: &[u32],
    chain: &[u64],
    room: &mut [u8],
) -> usize
    ensures { ReasonsInto (reasons_of (entries_in store.now (length times.now)) times.now before.now gap.now latency.now chain.now) (length chain.now) room.old result room.new }
{
    if room.len() / 256 < chain.len() {
        return 0;
    }
    put_lines(store, times, before, gap, latency, chain, room)
}
