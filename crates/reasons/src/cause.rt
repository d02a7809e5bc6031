// Why a record of a chain has its time, by the record that comes behind it there.
ghost use Rattle.std.specs.Prelude.{◌≡◌, length, get_or};
ghost use Rattle.store.specs.Layout.{entries_in};
ghost use Rattle.reasons.specs.Reasons.{by_processor, cause_behind, cause_by, cause_of};

use lines::{Cause, Stamped};

// The gap at a place of a table, 0 where there is no such place.
fn gap_at(table: &[u64], i: usize) -> u64
    ensures { result ≡ get_or table.now i 0 }
{
    table.get(i).copied().unwrap_or(0)
}

// By the processor, which keeps so much of the gap.
fn by_processor(kept: u64, earlier: Stamped, own: Stamped) -> Cause
    ensures { result ≡ by_processor kept earlier own }
{
    if kept == 0 {
        return Cause::Before;
    }
    let gap = signed::apart(earlier.original, own.original);
    Cause::Kept(kept, gap, earlier.line)
}

// The step from i to the record before it, j.
fn cause_behind(store: &[u32], times: &[i64], kept: u64, latency: u64, i: usize, j: usize) -> Cause
    ensures { result ≡ cause_behind (entries_in store.now (length times.now)) times.now kept latency i j }
{
    let own = lines::stamped_at(store, times, i);
    let earlier = lines::stamped_at(store, times, j);
    if steps::kept(own.corrected, earlier.corrected, kept) {
        return by_processor(kept, earlier, own);
    }
    Cause::Sent(latency)
}

// The step from i to j.
fn cause_by(
    store: &[u32],
    times: &[i64],
    before: &[u32],
    gap: &[u64],
    latency: &[u32],
    i: u64,
    j: u64,
) -> Cause
    ensures { result ≡ cause_by (entries_in store.now (length times.now)) times.now before.now gap.now latency.now i j }
{
    let at = i as usize;
    let wait = steps::wait_at(latency, at);
    if steps::wait_at(before, at) != j {
        return Cause::Sent(wait);
    }
    let kept = gap_at(gap, at);
    cause_behind(store, times, kept, wait, at, j as usize)
}

// Of a record of a chain, by those behind it: the last one is at its original.
pub(crate) fn cause_of(
    store: &[u32],
    times: &[i64],
    before: &[u32],
    gap: &[u64],
    latency: &[u32],
    own: u64,
    more: &[u64],
) -> Cause
    ensures { result ≡ cause_of (entries_in store.now (length times.now)) times.now before.now gap.now latency.now own more.now }
{
    match more.first() {
        Some(next) => cause_by(store, times, before, gap, latency, own, *next),
        None => Cause::Original,
    }
}
