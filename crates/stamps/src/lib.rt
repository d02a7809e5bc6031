// Where the timestamps of records stand in the trace, by where the store says that their lines start.
#![tactic(auto)]

ghost use Rattle.std.specs.Prelude.{◌≡◌, drop};
ghost use Rattle.paper.specs.Line.{after};
ghost use Rattle.stamps.specs.Stamps.{in_place, Place, StampOf};

// A timestamp is s[at..at + long].
#[derive(Clone, Copy)]
pub struct Stamp {
    pub at: usize,
    pub long: usize,
}

// The place behind the next space from `at` on, or the end.
fn after_space(s: &[u8], at: usize) -> usize
    ensures { Place s.now (after (drop at s.now)) result }
{
    if s.len() <= at {
        return s.len();
    }
    let space = octets::find(s, at, 32);
    if space == s.len() { space } else { space + 1 }
}

// Where the third field of the line begins that starts at a place.
pub fn third_field(s: &[u8], start: usize) -> usize
    ensures { Place s.now (after (after (drop start s.now))) result }
{
    let second = after_space(s, start);
    after_space(s, second)
}

// The timestamp of record i: the third field of its line.
pub fn stamp_of(s: &[u8], store: &[u32], i: usize) -> Stamp
    ensures { StampOf s.now store.now i result }
{
    let start = store::start_at(store, i);
    let third = third_field(s, start);
    let time = store::time_at(store, i);
    Stamp {
        at: third,
        long: shown::shown_length(time),
    }
}

// A timestamp of `old` bytes, from which on there are `there` bytes, among the last `left`; its new one of `new` bytes.
pub fn in_place(left: usize, there: usize, old: usize, new: usize) -> bool
    ensures { result ≡ in_place left there old new }
{
    there <= left && old <= there && 0 < old && 0 < new
}
