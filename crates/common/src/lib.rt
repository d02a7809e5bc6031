// 18: "if both hold a listed record of one processor". Each trace's records are gone over once, as they stand in the store after it was
// read; lines that are passed over are not there.
#![tactic(auto)]

ghost use Rattle.std.specs.Prelude.{◌≡◌, List};
ghost use Rattle.paper.specs.Merging.{share_one};
ghost use Rattle.paper.specs.declared.Entry.{Entry};
ghost use Rattle.store.specs.Layout.{entries_in};
ghost use Rattle.common.specs.Held.{Held};

// Of each of the sixty-four processors whether one of the first `listed` records of a store is its own.
pub fn held(store: &[u32], listed: usize) -> [bool; 64]
    ensures { Held (entries_in store.now listed) result }
{
    let mut seen = [false; 64];
    for i in 0..listed {
        let p = store::processor_at(store, i);
        seen[p] = true;
    }
    seen
}

// Whether one of the first `listed` records of a store is a processor's that holds records of another trace.
pub fn shares(store: &[u32], listed: usize, other: [bool; 64]) -> bool
    ensures { (es : List Entry) → Held es other → result ≡ share_one es (entries_in store.now listed) }
{
    for i in 0..listed {
        let p = store::processor_at(store, i);
        if other[p] {
            return true;
        }
    }
    false
}
