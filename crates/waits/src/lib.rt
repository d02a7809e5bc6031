// The tables that the engine of the clock condition takes, from the records' store and the latency table. As many records are
// looked at as the lent slice has places; specs/Tables.antt says what it holds afterwards.
#![tactic(auto)]

ghost use Rattle.std.specs.Prelude.{◌*◌, ◌/◌, ◌≤◌, ◌<◌, ◌≡◌, length, get_or, replicate};
ghost use Rattle.paper.specs.Gaps.{gap_of};
ghost use Rattle.paper.specs.Matching.{gap_from};
ghost use Rattle.store.specs.Layout.{entry_from, entries_in};
ghost use Rattle.engine.specs.Promise.{place};
ghost use Rattle.waits.specs.Tables.{latency_of, originals_of, befores_into, gaps_by, gaps_into, latencies_of};

use paper::Role;

// ---- one record

// The number at a place of the table, 0 where it has no such place.
pub fn number_at(table: &[u32], at: usize) -> u32
    ensures { result ≡ get_or table.now at 0 }
{
    table.get(at).copied().unwrap_or(0)
}

fn latency_at(store: &[u32], table: &[u32], i: usize) -> u32
    ensures { result ≡ latency_of table.now (entry_from store.now i) }
{
    match store::role_at(store, i) {
        Role::Neither => 0,
        Role::Send(_) => 0,
        Role::Receive(m) => {
            let receiver = store::processor_at(store, i);
            number_at(table, 64 * m.peer + receiver)
        }
    }
}

// So many thousandths of n, rounded down: of its thousands and of the rest, so that no product is too large.
fn thousandths(share: u32, n: u64) -> u64
    requires { share ≤ 1000 }
    ensures { result ≡ share * n / 1000 }
{
    let share = u64::from(share);
    share * (n / 1000) + share * (n % 1000) / 1000
}

// "at least that many thousandths of their original gap, rounded down"
fn gap_of(share: u32, before: i64, own: i64) -> u64
    ensures { share ≤ 1000 → result ≡ gap_of share before own }
{
    if share > 1000 {
        return 0;
    }
    thousandths(share, signed::apart(before, own))
}

// The gap that record `i` of n keeps from the one at `j`, where there is one.
pub fn gap_at(store: &[u32], share: u32, n: usize, i: usize, j: u32) -> u64
    ensures { share ≤ 1000 → i < n → result ≡ gap_from share (entries_in store.now n) i (place n j) }
{
    let at = j as usize;
    if at >= n {
        return 0;
    }
    gap_of(share, store::time_at(store, at), store::time_at(store, i))
}

// ---- all of them

// Of each record its original time.
pub fn originals_into(store: &[u32], out: &mut [i64])
    ensures { out.new ≡ originals_of (entries_in store.now (length out.old)) }
{
    for (i, original) in out.iter_mut().enumerate() {
        *original = store::time_at(store, i);
    }
}

// The same number for each of the sixty-four processors.
pub fn for_each(n: u32) -> [u32; 64]
    ensures { result ≡ replicate 64 n }
{
    [n; 64]
}

// Of each record the place of the record before it on its processor, the number of records where there is none. Where the places
// are too many, nothing is touched.
pub fn befores_into(store: &[u32], out: &mut [u32])
    ensures { out.new ≡ befores_into store.now out.old }
{
    if out.len() >= store::TOO_MANY {
        return;
    }
    // of each processor the place of its last record so far
    let mut last = for_each(out.len() as u32);
    for (i, before) in out.iter_mut().enumerate() {
        let p = store::processor_at(store, i);
        *before = last[p];
        last[p] = i as u32;
    }
}

fn keep_share(store: &[u32], share: u32, before: &[u32], out: &mut [u64])
    requires { share ≤ 1000 }
    ensures { out.new ≡ gaps_by share (entries_in store.now (length out.old)) before.now }
{
    let n = out.len();
    for (i, gap) in out.iter_mut().enumerate() {
        *gap = gap_at(store, share, n, i, number_at(before, i));
    }
}

// Of each record the gap that it keeps from the one before it, whose place is in `before`. Where the share is above 1,000, nothing is touched.
pub fn gaps_into(store: &[u32], share: u32, before: &[u32], out: &mut [u64])
    ensures { out.new ≡ gaps_into share store.now before.now out.old }
{
    if share <= 1000 {
        keep_share(store, share, before, out);
    }
}

// Of each receive the latency from its sender, 0 for any other record.
pub fn latencies_into(store: &[u32], table: &[u32], out: &mut [u32])
    ensures { out.new ≡ latencies_of table.now (entries_in store.now (length out.old)) }
{
    for (i, latency) in out.iter_mut().enumerate() {
        *latency = latency_at(store, table, i);
    }
}
