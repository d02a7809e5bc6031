// What the records of a store so far come to, by record type, event type and processor: how many there are, the sum of their times and
// that of their messages' lengths. Each record keeps these of all like it up to itself, and like records are found along chains of
// buckets, so that the next record, or a pair of statistics, looks at few of them.
ghost use Rattle.std.specs.Prelude.{◌≡◌, ◌+◌, ◌<◌, length, replicate};
ghost use Rattle.reading.specs.Tidy.{InRange};
ghost use Rattle.store.specs.Layout.{entry_from};
ghost use Rattle.statistics.specs.Tallied.{Tallied};

use crate::total::Sums;
use crate::{key, total};

// No record is in a bucket yet.
pub(crate) fn heads() -> [u32; 1024]
    ensures { result ≡ replicate 1024 0 }
{
    [0; 1024]
}

// Record i behind those before it. A sum is kept as the signed number whose code it is.
pub(crate) fn add(
    store: &[u32],
    link: &mut [u32],
    counts: &mut [u32],
    times: &mut [i64],
    lengths: &mut [i64],
    heads: &mut [u32],
    i: usize,
)
    requires { (i < length link.old) × InRange (entry_from store.now i).body.time × Tallied store.now (length link.old) link.old counts.old times.old lengths.old heads.old i }
    ensures { Tallied store.now (length link.old) link.new counts.new times.new lengths.new heads.new (i + 1) }
{
    let key = key::key_at(store, i);
    let sums = Sums {
        store,
        link,
        counts,
        times,
        lengths,
        heads,
    };
    let before = total::total_of(sums, i, key);
    let all = total::with_record(store, i, before);
    let b = key::bucket_of(key);
    let behind = (i + 1) as u32;
    link[i] = heads[b];
    heads[b] = behind;
    counts[i] = all.count;
    times[i] = signed::from_code(all.times);
    lengths[i] = signed::from_code(all.lengths);
}
