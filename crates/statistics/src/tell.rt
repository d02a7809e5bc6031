// What a pair tells, beside the numbers that are due. No slice is looked at here.
ghost use Rattle.std.specs.Prelude.{◌≡◌, ◌+◌};
ghost use Rattle.paper.specs.Tests.{one_of};
ghost use Rattle.reading.specs.Tidy.{InRange};
ghost use Rattle.statistics.specs.Tells.{volume_events, other_number, is_within, Fair, Comparable, other_time, tells_other};
ghost use Rattle.statistics.specs.Totals.{since_least};

use crate::total;
use crate::total::Total;

// "one microsecond for each entry"
const EACH: u64 = 1;

// "a count or volume of -1 .. [isn't] compared".
#[tactic(auto, using(crate::proofs::Signs::signed_tests), unfolding(crate::specs::Tells::other_number, signed::specs::Naturals::size_of))]
fn other_number(told: i64, due: u64) -> bool
    ensures { result ≡ other_number told due }
{
    if told == -1 {
        return false;
    }
    let Some(n) = signed::size(told) else {
        return true;
    };
    n as u64 != due
}

// "the sum of exits less the sum of entries, within one microsecond for each entry": told and entries against exits, each sum with as many
// times counted from the same place.
#[tactic(auto, unfolding(crate::specs::Tells::is_within))]
fn near(told: i64, entries: Total, exits: Total) -> bool
    requires { InRange told × Fair entries exits }
    ensures { result ≡ is_within entries.count (since_least told + entries.times) (1000000000000000 + exits.times) }
{
    let given = total::since_least(told) + entries.times;
    let due = 1_000_000_000_000_000 + exits.times;
    given.abs_diff(due) <= u64::from(entries.count) * EACH
}

// "and only where they are equally many"; "a time of -1.000000 .. [isn't] compared".
#[tactic(auto, using(crate::proofs::Signs::signed_tests), unfolding(crate::specs::Tells::other_time))]
fn other_time(told: i64, entries: Total, exits: Total) -> bool
    requires { InRange told × Comparable entries exits }
    ensures { result ≡ other_time told entries exits }
{
    told != -1_000_000 && entries.count == exits.count && !near(told, entries, exits)
}

// "volume of -21, -51 or -52"
#[tactic(auto, using(crate::proofs::Signs::signed_tests), unfolding(paper::specs::Tests::one_of))]
fn has_volume(event: i64) -> bool
    ensures { result ≡ one_of volume_events event }
{
    event == -21 || event == -51 || event == -52
}

// "-101 (times), -102 (counts) and -103 (volumes)"
#[tactic(auto, using(crate::proofs::Signs::signed_tests), unfolding(crate::specs::Tells::tells_other))]
pub(crate) fn tells_other(kind: i64, event: i64, told: i64, first: Total, second: Total) -> bool
    requires { InRange told × Comparable first second }
    ensures { result ≡ tells_other kind event told first second }
{
    if kind == -101 {
        return other_time(told, first, second);
    }
    if kind == -102 {
        return other_number(told, u64::from(first.count) + u64::from(second.count));
    }
    has_volume(event) && other_number(told, first.lengths)
}
