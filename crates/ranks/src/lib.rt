// How many steps lead from each record back to one at its original time, at the fewest. From those records on, which have none, the steps are
// gone back: whoever is led to a record by a step has one step more, unless fewer are known already. Each record is looked at once, in
// the order of its steps, so that the work is linear whatever the steps are.
#![tactic(auto)]

mod seeds;
mod spread;

ghost use Rattle.std.specs.Prelude.{◌≡◌, [], ◌∷◌, length, set};
ghost use Rattle.ranks.specs.Ranked.{rankable, RanksOf, RankedInto};
ghost use Rattle.ranks.specs.Inner.{Few, Slices, Inverts};

use spread::Steps;

// Whether there are n of each, and not too many.
fn fit(n: usize, first: usize, second: usize, queue: usize, after: usize, receive: usize) -> bool
    ensures { result ≡ rankable n (first ∷ second ∷ queue ∷ after ∷ receive ∷ []) }
{
    n < store::TOO_MANY && engine::all_are(n, first, second, queue, after, receive)
}

// Puts a number into a place, where there is such a place.
fn put(into: &mut [u32], at: usize, n: u32)
    ensures { into.new ≡ set into.old at n }
{
    // by its index: of a place that `get_mut` lends, no proof learns what it holds afterwards
    if at < into.len() {
        into[at] = n;
    }
}

// Of each record the one whose step leads to it. A place that no step leads to holds what it held.
fn invert(table: &[u32], into: &mut [u32])
    requires { Few (length table.now) table.now into.old }
    ensures { Inverts table.now into.new }
{
    for (i, to) in table.iter().enumerate() {
        put(into, *to as usize, i as u32);
    }
}

// The tables turned round, the records without steps into the queue, and back from there.
fn count(
    first: &[u32],
    second: &[u32],
    ranks: &mut [u32],
    queue: &mut [u32],
    after: &mut [u32],
    receive: &mut [u32],
)
    requires { Slices (length ranks.old) first.now second.now ranks.old queue.old after.old receive.old }
    ensures { RanksOf (length ranks.old) first.now second.now ranks.old ranks.new }
{
    invert(first, after);
    invert(second, receive);
    let tail = seeds::seed(ranks, queue);
    let steps = Steps {
        first,
        second,
        after,
        receive,
    };
    steps.spread(ranks, queue, tail);
}

// `first` and `second` are the steps of either kind; `ranks` has 0 for the records that have none, and comes back with the steps of each. The
// other slices are room for the work.
pub fn ranks_into(
    first: &[u32],
    second: &[u32],
    ranks: &mut [u32],
    queue: &mut [u32],
    after: &mut [u32],
    receive: &mut [u32],
)
    ensures { RankedInto (rankable (length ranks.old) (length first.now ∷ length second.now ∷ length queue.old ∷ length after.old ∷ length receive.old ∷ [])) (length ranks.old) first.now second.now ranks.old ranks.new }
{
    if fit(
        ranks.len(),
        first.len(),
        second.len(),
        queue.len(),
        after.len(),
        receive.len(),
    ) {
        count(first, second, ranks, queue, after, receive);
    }
}
