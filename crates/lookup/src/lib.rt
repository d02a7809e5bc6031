// The place of the listed record that stands on a line of the file.
#![tactic(auto)]

ghost use Rattle.std.specs.Prelude.{◌≡◌};
ghost use Rattle.store.specs.Layout.{entries_in};
ghost use Rattle.lookup.specs.Place.{place_from, place_on};

fn place_from(store: &[u32], listed: usize, line: usize) -> usize
    ensures { result ≡ place_from line (entries_in store.now listed) }
{
    for i in 0..listed {
        if store::line_at(store, i) == line {
            return i;
        }
    }
    listed
}

// The place on the line that a word names. Where no listed record stands there, the number of them, which is no place.
pub fn place_on(store: &[u32], listed: usize, word: &[u8]) -> usize
    ensures { result ≡ place_on word.now (entries_in store.now listed) }
{
    // a `match`: of a `map_or` here it stayed open what its closure answers
    match numeral::read_natural(word) {
        Some(line) => place_from(store, listed, line),
        None => listed,
    }
}
