// A mark of the tracing levels: "Only a -904 mark with three data under descriptor 2 counts."
ghost use Rattle.std.specs.Prelude.{◌≡◌, cond};
ghost use Rattle.paper.specs.Levels as levels;
ghost use Rattle.paper.specs.Levels.{is_three};
ghost use Rattle.store.specs.Layout.{entry_from};

use paper::Data;

fn is_three(values: Data) -> bool
    ensures { result ≡ is_three values }
{
    matches!(values, Data::Three(..))
}

// Most records are of another event, which is asked first.
fn counts(store: &[u32], i: usize) -> bool
    ensures { result ≡ levels.counts (entry_from store.now i).body }
{
    store::event_at(store, i) == -904
        && store::kind_at(store, i) == -2
        && is_three(store::values_at(store, i))
}

// The last mark that counts, with record i behind those before.
pub(crate) fn later(store: &[u32], i: usize, before: usize) -> usize
    ensures { result ≡ cond (levels.counts (entry_from store.now i).body) i before }
{
    if counts(store, i) { i } else { before }
}
