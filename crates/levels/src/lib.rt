// 17: whether each processor that has listed records was traced at the levels that the caller expects, as its last mark tells. The store
// is gone over once, and then the processors.
#![tactic(auto)]

mod expected;
mod mark;

ghost use Rattle.std.specs.Prelude.{◌≡◌, replicate};
ghost use Rattle.paper.specs.Levels.{levels_from, levels_of};
ghost use Rattle.store.specs.Layout.{entries_in};
ghost use Rattle.levels.specs.Seen.{Seen};

use paper::{Asked, Fault, Refusal};

// The same place for each of the sixty-four processors.
fn for_each(place: usize) -> [usize; 64]
    ensures { result ≡ replicate 64 place }
{
    [place; 64]
}

// "The smallest such processor decides; the line is that of its last listed record."
fn first_off(
    store: &[u32],
    listed: usize,
    last: &[usize],
    mark: &[usize],
    asked: Asked,
) -> Result<(), Refusal>
    requires { Seen store.now listed last.now mark.now }
    ensures { result ≡ levels_from asked (entries_in store.now listed) 0 64 }
{
    for p in 0..64 {
        if expected::off(store, listed, last[p], mark[p], asked) {
            return Err(Refusal {
                fault: Fault::OtherLevels,
                site: store::site_at(store, last[p]),
            });
        }
    }
    Ok(())
}

// The first `listed` records of a store, looked at where the levels are asked for. A place that is `listed` is none.
pub fn check(store: &[u32], listed: usize, asked: Asked) -> Result<(), Refusal>
    ensures { result ≡ levels_of asked (entries_in store.now listed) }
{
    if asked.levels != 1 {
        return Ok(());
    }
    // of each processor the place of its last record so far, and of its last mark that counts
    let mut last = for_each(listed);
    let mut mark = for_each(listed);
    for i in 0..listed {
        let p = store::processor_at(store, i);
        last[p] = i;
        mark[p] = mark::later(store, i, mark[p]);
    }
    first_off(store, listed, &last, &mark, asked)
}
