// What like records come to.
ghost use Rattle.std.specs.Prelude.{◌≡◌, ◌+◌, ◌^◌, ◌<◌, length};
ghost use Rattle.paper.specs.Statistics.{length_in};
ghost use Rattle.reading.specs.Tidy.{InRange};
ghost use Rattle.chains.specs.Chains.{Last, behind};
ghost use Rattle.store.specs.Layout.{entry_from};
ghost use Rattle.statistics.specs.Keys.{under_at, bucket_of};
ghost use Rattle.statistics.specs.Totals.{since_least, with_one};
ghost use Rattle.statistics.specs.Tallied.{Tallied, Backward, TotalOf};
ghost use Rattle.statistics.specs.Ready.{Lacks, Held, AllHeld};

use crate::key;
use crate::key::Key;
use paper::Role;

// How many records there are, and modulo 2^64 the sum of their times, each counted from one microsecond before the least that the format
// holds, and that of their messages' lengths.
#[derive(Clone, Copy)]
pub(crate) struct Total {
    pub count: u32,
    pub times: u64,
    pub lengths: u64,
}

// The records of a store and what is kept of those that were added, by which they are found and told: `Tallied`.
#[derive(Clone, Copy)]
pub(crate) struct Sums<'a> {
    pub store: &'a [u32],
    pub link: &'a [u32],
    pub counts: &'a [u32],
    pub times: &'a [i64],
    pub lengths: &'a [i64],
    pub heads: &'a [u32],
}

// The place of the last record under the key before place `from`, along the chain of its bucket.
fn last_under(store: &[u32], link: &[u32], from: u32, key: Key) -> Option<usize>
    requires { Backward store.now link.now (bucket_of key) from }
    ensures { Last (under_at store.now key) from (behind result) }
{
    let mut p = from as usize;
    while 0 < p {
        let at = p - 1;
        if key::is_under(store, at, key) {
            return Some(at);
        }
        p = link[at] as usize;
    }
    None
}

// Of the records under the key among those that were added, which are `upto`: the work does not ask how many these are.
pub(crate) fn total_of(sums: Sums, upto: usize, key: Key) -> Total
    requires { Tallied sums.store.now (length sums.link.now) sums.link.now sums.counts.now sums.times.now sums.lengths.now sums.heads.now upto }
    ensures { TotalOf sums.entry.store.now key upto result }
{
    let b = key::bucket_of(key);
    let Some(at) = last_under(sums.store, sums.link, sums.heads[b], key) else {
        return Total {
            count: 0,
            times: 0,
            lengths: 0,
        };
    };
    Total {
        count: sums.counts[at],
        times: signed::code(sums.times[at]),
        lengths: signed::code(sums.lengths[at]),
    }
}

// ---- one record more

// A time counted from one microsecond before the least that the format holds.
pub(crate) fn since_least(time: i64) -> u64
    requires { InRange time }
    ensures { result ≡ since_least time }
{
    (time + 1_000_000_000_000_000) as u64
}

// The length of the message that a record sends or receives.
#[tactic(auto, unfolding(paper::specs::Statistics::length_in))]
fn length_in(role: Role) -> u64
    ensures { result ≡ length_in role }
{
    match role {
        Role::Neither => 0,
        Role::Send(m) | Role::Receive(m) => m.length,
    }
}

// A record that no line gives, beyond what the format holds: by the code of its time, which is 0, -1, 1, -2, .., or by its message's length.
fn is_beyond(store: &[u32], i: usize) -> bool
    ensures { Lacks (Held (entry_from store.now i)) result }
{
    1_999_999_999_999_998 < signed::code(store::time_at(store, i))
        || 999_999_999 < length_in(store::role_at(store, i))
}

// One of so many records is such.
pub(crate) fn any_beyond(store: &[u32], records: usize) -> bool
    ensures { Lacks (AllHeld store.now records) result }
{
    for i in 0..records {
        if is_beyond(store, i) {
            return true;
        }
    }
    false
}

// A record with those before it.
pub(crate) fn with_record(store: &[u32], i: usize, before: Total) -> Total
    requires { InRange (entry_from store.now i).body.time × (before.count + 1 < 2 ^ 32) }
    ensures { result ≡ with_one (entry_from store.now i) before }
{
    let time = since_least(store::time_at(store, i));
    let length = length_in(store::role_at(store, i));
    Total {
        count: before.count + 1,
        times: before.times.wrapping_add(time),
        lengths: before.lengths.wrapping_add(length),
    }
}
