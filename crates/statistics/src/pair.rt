// One pair beside what the records come to.
ghost use Rattle.std.specs.Prelude.{◌≡◌, length};
ghost use Rattle.paper.specs.Statistics as paper;
ghost use Rattle.paper.specs.Events.{standing_of};
ghost use Rattle.reading.specs.Tidy.{InRange};
ghost use Rattle.statistics.specs.Ready.{Before, pair_differs, sums_differ};
ghost use Rattle.statistics.specs.Tells.{first_kind, second_kind};

use crate::key::Key;
use crate::total::Sums;
use crate::{tell, total};
use paper::Standing;

// "A pair whose event isn't listed .. [isn't] compared".
#[tactic(auto, unfolding(paper::specs::Statistics::is_listed))]
fn is_listed(event: i64) -> bool
    ensures { result ≡ paper.is_listed (standing_of event) }
{
    matches!(
        events::standing(event),
        Standing::Listed | Standing::Message
    )
}

// The record type of what a pair asks for first: entries for a time and for a count; for a volume entries, which are the sends of -21, or else
// exits, which are receives.
#[tactic(auto, using(crate::proofs::Signs::signed_tests), unfolding(crate::specs::Tells::first_kind))]
fn first_kind(kind: i64, event: i64) -> i64
    ensures { result ≡ first_kind kind event }
{
    if kind == -101 || kind == -102 || event == -21 {
        -3
    } else {
        -4
    }
}

// And of the other: exits for a time, marks for a count. A volume has none.
#[tactic(auto, using(crate::proofs::Signs::signed_tests), unfolding(crate::specs::Tells::second_kind))]
fn second_kind(kind: i64) -> i64
    ensures { result ≡ second_kind kind }
{
    if kind == -101 { -4 } else { -2 }
}

// "with that processor's earlier records of the pair's event", of a pair in record i.
fn sums_differ(sums: Sums, i: usize, event: i64, told: i64) -> bool
    requires { InRange told × Before sums.store.now sums.link.now sums.counts.now sums.times.now sums.lengths.now sums.heads.now i }
    ensures { result ≡ sums_differ sums.entry.store.now (length sums.entry.link.now) i event told }
{
    let kind = store::kind_at(sums.store, i);
    let processor = store::processor_at(sums.store, i);
    let one = Key {
        kind: first_kind(kind, event),
        event,
        processor,
    };
    let other = Key {
        kind: second_kind(kind),
        event,
        processor,
    };
    let first = total::total_of(sums, i, one);
    let second = total::total_of(sums, i, other);
    tell::tells_other(kind, event, told, first, second)
}

pub(crate) fn differs(sums: Sums, i: usize, event: i64, told: i64) -> bool
    requires { InRange told × Before sums.store.now sums.link.now sums.counts.now sums.times.now sums.lengths.now sums.heads.now i }
    ensures { result ≡ pair_differs sums.entry.store.now (length sums.entry.link.now) i event told }
{
    is_listed(event) && sums_differ(sums, i, event, told)
}
