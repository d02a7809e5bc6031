// The records whose time moved.
ghost use Rattle.std.specs.Prelude.{◌≤◌, length};
ghost use Rattle.writing.specs.Inner.{Next};

// The first one from place k on, or the number of times where there is none.
pub(crate) fn next_moved(store: &[u32], times: &[i64], k: usize) -> usize
    requires { k ≤ length times.now }
    ensures { Next store.now times.now k result }
{
    for i in k..times.len() {
        let old = store::time_at(store, i);
        if old != times[i] {
            return i;
        }
    }
    times.len()
}
