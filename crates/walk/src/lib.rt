// "from that record back, step by step, to a record still at its original": the walk along the steps, each to a record that has one step
// less, into a lent list.
#![tactic(auto)]

ghost use Rattle.std.specs.Prelude.{◌+◌, ◌<◌, ◌≡◌, ◌++◌, length, take, drop};
ghost use Rattle.paper.specs.Filling.{filling, on_list};
ghost use Rattle.walk.specs.Way.{rank_at, next, way, count_at, way_at};

use paper::Filled;

// The steps of either kind, and how many each record has.
#[derive(Clone, Copy)]
struct Steps<'a> {
    first: &'a [u32],
    second: &'a [u32],
    ranks: &'a [u32],
}

// How many steps a record has; as many as there are records, which none has, where there is no such record.
fn rank_at(ranks: &[u32], i: usize) -> usize
    ensures { result ≡ rank_at ranks.now i }
{
    if i < ranks.len() {
        ranks[i] as usize
    } else {
        ranks.len()
    }
}

// How many records the chain has, the first one counted; 0 where no steps are known.
fn count_at(ranks: &[u32], i: usize) -> usize
    ensures { result ≡ count_at ranks.now i }
{
    let rank = rank_at(ranks, i);
    if rank < ranks.len() { rank + 1 } else { 0 }
}

impl Steps<'_> {
    // The record that a step leads to from which so many are left.
    fn next_of(self, i: usize, left: usize) -> u32
        ensures { result ≡ next self.entry.first.now self.entry.second.now self.entry.ranks.now left i }
    {
        let processor = waits::number_at(self.first, i);
        let send = waits::number_at(self.second, i);
        let rank = rank_at(self.ranks, processor as usize);
        steps::onward(processor, send, rank, left)
    }

    // The record and the walk from it, with so many steps left, into the list from a place on. By a reference: handed on as they are, the
    // three slices would lie on the stack anew for each record of the chain.
    fn walk(&self, i: u32, left: usize, at: usize, list: &mut [u64])
        requires { at + left < length list.old }
        ensures { list.new ≡ take at list.old ++ (way self.now.first.now self.now.second.now self.now.ranks.now left i ++ drop (at + left + 1) list.old) }
    {
        list[at] = u64::from(i);
        if left == 0 {
            return;
        }
        let to = self.next_of(i as usize, left - 1);
        self.walk(to, left - 1, at + 1, list);
    }
}

// The chain of the record at a place, by its steps of either kind and how many each record has, into the list; 16 where that is too short.
pub fn fill(first: &[u32], second: &[u32], ranks: &[u32], place: u32, list: &mut [u64]) -> Filled
    ensures { filling result list.new ≡ on_list (way_at first.now second.now ranks.now place) list.old }
{
    let count = count_at(ranks, place as usize);
    let places = list.len();
    if count != 0 && count <= places {
        let steps = Steps {
            first,
            second,
            ranks,
        };
        steps.walk(place, count - 1, 0, list);
    }
    answer::filled_list(count, places)
}
