// The engine of the clock condition: round after round over two lent slices until one repeats. specs/ says how that ends, in terms
// of the paper's `settle`. No table of originals is kept: rounds rise, so that the largest of a record's own time, its
// predecessor's plus the gap and its send's plus latency is the paper's next time (proofs/Rising.antt).
#![tactic(auto)]

ghost use Rattle.std.specs.Prelude.{◌≤◌, ◌<◌, ◌≡◌, [], ◌∷◌, length, get_or};
ghost use Rattle.paper.specs.Tests.{all_up_to};
ghost use Rattle.paper.specs.Clock as paper;
ghost use Rattle.paper.specs.Clock.{time_at, waited};
ghost use Rattle.engine.specs.Promise.{place, waits_of, all_are, widest, gaps_for, fitting, Ended, RunInto};
ghost use Rattle.engine.specs.Inner.{Told, Within, Low, Sized, following, Turned, front, Stepped};

// The largest time that the format holds.
const LIMIT: i64 = 999_999_999_999_999;

// The widest gap between two times that the format holds.
const WIDEST: u64 = 1_999_999_999_999_998;

// What the records wait for: record i for the record at before[i], the one before it on its processor, with gap[i], and for its send at
// send[i] with latency[i]; a place past the end is none. No gap is kept where none is lent.
#[derive(Clone, Copy)]
pub struct Waits<'a> {
    pub before: &'a [u32],
    pub gap: &'a [u64],
    pub send: &'a [u32],
    pub latency: &'a [u32],
}

// What a round did.
#[derive(Clone, Copy)]
enum Turn {
    Over,
    Same,
    Moved,
}

// Why no times come of the rounds.
#[derive(Clone, Copy)]
pub enum Unsettled {
    // no times exist
    Impossible,
    // the slices are not of one length, or a gap is wider than any between two times
    Misfit,
}

fn later(a: i64, b: i64) -> i64
    ensures { result ≡ paper.later a b }
{
    a.max(b)
}

// `own`, or the time of the record at `j` plus the weight, where there is one and that is later.
fn after(from: &[i64], j: u32, weight: u64, own: i64) -> i64
    requires low { Low from.now }
    requires weight_le_widest { weight ≤ widest }
    ensures { result ≡ waited (time_at from.now) (place (length from.now) j) weight own }
{
    let at = j as usize;
    if at < from.len() {
        later(own, from[at] + weight as i64)
    } else {
        own
    }
}

impl Waits<'_> {
    // The gap of record `i`: none where no gaps are lent at all. That is asked in every turn and always the same, so that what is compiled has
    // a loop of its own without gaps.
    fn gap_at(self, i: usize) -> u64
        requires { (length self.gap.now ≡ 0 → ⊥) → i < length self.gap.now }
        ensures { result ≡ get_or self.entry.gap.now i 0 }
    {
        if self.gap.is_empty() { 0 } else { self.gap[i] }
    }
}

// The next time of record `i`, from its own time on.
fn next_at(waits: Waits, from: &[i64], i: usize) -> i64
    requires low { Low from.now }
    requires sized { Sized waits.before.now waits.gap.now waits.send.now waits.latency.now from.now from.now }
    requires i_in_bounds { i < length from.now }
    ensures { result ≡ following waits.entry.before.now waits.entry.gap.now waits.entry.send.now waits.entry.latency.now from.now i }
{
    let own = after(from, waits.before[i], waits.gap_at(i), from[i]);
    after(from, waits.send[i], u64::from(waits.latency[i]), own)
}

// Into `to` the round after `from`. No time of `from` is above the limit, so that only one that moved is held to it. Those that moved are
// counted: of a flag that falls once the compiler makes two loops.
fn round(waits: Waits, from: &[i64], to: &mut [i64]) -> Turn
    requires low { Low from.now }
    requires sized { Sized waits.before.now waits.gap.now waits.send.now waits.latency.now from.now to.old }
    ensures { Turned (following waits.entry.before.now waits.entry.gap.now waits.entry.send.now waits.entry.latency.now) from.now result to.new }
{
    let mut moved: usize = 0;
    for i in 0..from.len() {
        let time = next_at(waits, from, i);
        to[i] = time;
        if time != from[i] {
            if time > LIMIT {
                return Turn::Over;
            }
            moved += 1;
        }
    }
    if moved == 0 { Turn::Same } else { Turn::Moved }
}

// Whether no time is above the limit.
fn all_low(times: &[i64]) -> bool
    ensures { Told result (Within times.now) (length times.now) }
{
    times.iter().all(|time| *time <= LIMIT)
}

// A round from `times` into `spare`, or back.
fn step(first: bool, waits: Waits, times: &mut [i64], spare: &mut [i64]) -> Turn
    requires low { Low (front first times.old spare.old) }
    requires sized { Sized waits.before.now waits.gap.now waits.send.now waits.latency.now times.old spare.old }
    ensures { Stepped (following waits.entry.before.now waits.entry.gap.now waits.entry.send.now waits.entry.latency.now) first times.old spare.old result times.new spare.new }
{
    if first {
        round(waits, times, spare)
    } else {
        round(waits, spare, times)
    }
}

// The first round that the next one repeats.
fn rounds(waits: Waits, times: &mut [i64], spare: &mut [i64]) -> Result<usize, Unsettled>
    requires { Sized waits.before.now waits.gap.now waits.send.now waits.latency.now times.old spare.old }
    ensures { Ended (waits_of times.old waits.entry.before.now waits.entry.gap.now waits.entry.send.now waits.entry.latency.now) result times.new spare.new }
{
    if !all_low(times) {
        return Err(Unsettled::Impossible);
    }
    let mut first = true;
    for k in 0..times.len().max(1) {
        match step(first, waits, times, spare) {
            Turn::Over => return Err(Unsettled::Impossible),
            Turn::Same => return Ok(k),
            Turn::Moved => first = !first,
        }
    }
    Err(Unsettled::Impossible)
}

// Whether all five lengths are n.
pub fn all_are(
    n: usize,
    first: usize,
    second: usize,
    third: usize,
    fourth: usize,
    fifth: usize,
) -> bool
    ensures { result ≡ all_are n (first ∷ second ∷ third ∷ fourth ∷ fifth ∷ []) }
{
    [first, second, third, fourth, fifth] == [n; 5]
}

// How many gaps are as good as lent where n records are: none at all stand for one of 0 to each.
fn gaps_for(n: usize, lent: usize) -> usize
    ensures { result ≡ gaps_for n lent }
{
    if lent == 0 { n } else { lent }
}

// Whether no gap is wider than any between two times.
fn none_wider(gap: &[u64]) -> bool
    ensures { result ≡ all_up_to widest gap.now }
{
    gap.iter().all(|gap| *gap <= WIDEST)
}

// As many of each as there are times, or no gaps at all, and no gap that is too wide: the caller may lend any slice, and the sums of the
// rounds have to fit.
fn fit(waits: Waits, times: &[i64], spare: &[i64]) -> bool
    ensures { result ≡ fitting waits.entry.before.now waits.entry.gap.now waits.entry.send.now waits.entry.latency.now times.now spare.now }
{
    let n = times.len();
    let gaps = gaps_for(n, waits.gap.len());
    all_are(
        n,
        waits.before.len(),
        gaps,
        waits.send.len(),
        waits.latency.len(),
        spare.len(),
    ) && none_wider(waits.gap)
}

// The rounds from the originals in `times` on, in `times` and `spare` by turns.
pub fn run_rounds(waits: Waits, times: &mut [i64], spare: &mut [i64]) -> Result<usize, Unsettled>
    ensures { RunInto (fitting waits.entry.before.now waits.entry.gap.now waits.entry.send.now waits.entry.latency.now times.old spare.old) (waits_of times.old waits.entry.before.now waits.entry.gap.now waits.entry.send.now waits.entry.latency.now) times.old spare.old result times.new spare.new }
{
    if !fit(waits, times, spare) {
        return Err(Unsettled::Misfit);
    }
    rounds(waits, times, spare)
}
