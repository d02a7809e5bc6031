// A record of the store, as the lines tell of it.
ghost use Rattle.std.specs.Prelude.{◌≡◌, length};
ghost use Rattle.paper.specs.Clock.{time_at};
ghost use Rattle.store.specs.Layout.{entries_in};
ghost use Rattle.lines.specs.Records.{stamped_at};

use crate::Stamped;

// The record at place i of as many as there are times; where there is no such place, one that says nothing.
pub fn stamped_at(store: &[u32], times: &[i64], i: usize) -> Stamped
    ensures { result ≡ stamped_at (entries_in store.now (length times.now)) (time_at times.now) i }
{
    if times.len() <= i {
        return Stamped {
            line: 0,
            processor: 0,
            original: 0,
            corrected: 0,
        };
    }
    let line = store::line_at(store, i) as u64;
    let processor = store::processor_at(store, i) as u64;
    let original = store::time_at(store, i);
    Stamped {
        line,
        processor,
        original,
        corrected: times[i],
    }
}
