// What a record is by its record type and its event type: whether the first is listed, whether it is that of statistics, and whether the record
// is a send, a receive or neither. Each is a list of numbers: another event that becomes a message is a number more.
#![tactic(auto)]

ghost use Rattle.std.specs.Prelude.{◌≡◌, ◌&&◌};
ghost use Rattle.paper.specs.Tests.{eq_z, one_of};
ghost use Rattle.paper.specs.Events.{listed_kind, is_statistics};
ghost use Rattle.paper.specs.Line.{part_of};

use paper::Part;

// "Listed record types: -2 mark, -3 entry, -4 exit, 0 user data." "Record types -101 (times), -102 (counts) and -103 (volumes) become
// listed"
const KINDS: [i64; 7] = [-2, -3, -4, 0, -101, -102, -103];

const STATISTICS: [i64; 3] = [-101, -102, -103];

// "A send is an entry record of -21", "also sendbegin0's entry"
const SENDS: [i64; 2] = [-21, -27];

// "A receive is an exit record of -51 or -52", "also each exit of recvstatus0 or recvend0 that found it complete"
const RECEIVES: [i64; 5] = [-51, -52, -58, -60, -61];

fn one_of(numbers: &[i64], z: i64) -> bool
    ensures { result ≡ one_of numbers.now z }
{
    numbers.contains(&z)
}

#[tactic(auto, unfolding(paper::specs::Events::listed_kind))]
pub fn listed_kind(kind: i64) -> bool
    ensures { result ≡ listed_kind kind }
{
    one_of(&KINDS, kind)
}

// One comparison for every other listed record type, all of which are above these.
#[tactic(auto, unfolding(paper::specs::Events::is_statistics))]
pub fn is_statistics(kind: i64) -> bool
    ensures { result ≡ is_statistics kind }
{
    kind <= -101 && one_of(&STATISTICS, kind)
}

// A record of this type, and of one of these events.
fn is_record(kind: i64, of: i64, event: i64, events: &[i64]) -> bool
    ensures { result ≡ (eq_z kind of && one_of events.now event) }
{
    kind == of && one_of(events, event)
}

#[tactic(auto, unfolding(paper::specs::Line::part_of))]
pub fn part_of(kind: i64, event: i64) -> Part
    ensures { result ≡ part_of kind event }
{
    if is_record(kind, -3, event, &SENDS) {
        return Part::Sends;
    }
    if is_record(kind, -4, event, &RECEIVES) {
        return Part::Receives;
    }
    Part::Neither
}
