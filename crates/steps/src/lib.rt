// The steps that a chain of records goes by, each kind a table of places: of a record the one that it waits for, where the time is exactly
// that one's plus the wait. Numbers past the end of a slice are 0.
#![tactic(auto)]

ghost use Rattle.std.specs.Prelude.{◌≡◌, get_or, pos, ◌+ℤ◌, cond, eqb};
ghost use Rattle.paper.specs.Tests.{eq_z};
ghost use Rattle.paper.specs.Clock.{time_at};
ghost use Rattle.steps.specs.Tables.{exact_at, exact_table, processor_steps, end_rank, end_ranks};

pub fn wait_at(waits: &[u32], i: usize) -> u64
    ensures { result ≡ get_or waits.now i 0 }
{
    u64::from(waits::number_at(waits, i))
}

pub fn time_at(times: &[i64], i: usize) -> i64
    ensures { result ≡ time_at times.now i }
{
    times.get(i).copied().unwrap_or(0)
}

// ---- one record

// Whether a time is exactly an earlier one plus the wait. The two are subtracted, for their sum may be too large.
pub fn kept(time: i64, earlier: i64, wait: u64) -> bool
    ensures { result ≡ eq_z time (earlier +ℤ pos wait) }
{
    earlier <= time && signed::apart(earlier, time) == wait
}

// The place `j`, if record `i` waits for that one and the wait is kept exactly, or else `none`.
fn exact_at(times: &[i64], wait: u64, none: u32, i: usize, j: u32) -> u32
    ensures { result ≡ exact_at times.now wait none i j }
{
    let at = j as usize;
    if at < times.len() && kept(time_at(times, i), times[at], wait) {
        j
    } else {
        none
    }
}

// "an unmoved record is alone in its chain": no step leads on from it.
fn end_rank(time: i64, original: i64, none: u32) -> u32
    ensures { result ≡ end_rank time original none }
{
    if time == original { 0 } else { none }
}

// Where a chain goes on with so many steps left: to the processor's step where that is one with as many, else to the send's.
pub fn onward(first: u32, second: u32, rank: usize, left: usize) -> u32
    ensures { result ≡ cond (eqb rank left) first second }
{
    if rank == left { first } else { second }
}

// ---- all of them

// Of a table of waits those that are kept exactly; the others become `none`.
pub fn keep_exact(times: &[i64], waits: &[u32], none: u32, table: &mut [u32])
    ensures { table.new ≡ exact_table times.now waits.now none table.old }
{
    for (i, step) in table.iter_mut().enumerate() {
        *step = exact_at(times, wait_at(waits, i), none, i, *step);
    }
}

// Of each record the step to the one before it on its processor, where the gap to it is kept exactly. The records before are found here once
// more: called from a second place, the table of waits would no longer be part of the function that the rounds stand in, and these
// took a quarter longer. Where the places are too many, or the share is above 1,000, nothing is touched.
pub fn processor_steps(store: &[u32], times: &[i64], share: u32, out: &mut [u32])
    ensures { out.new ≡ processor_steps store.now times.now share out.old }
{
    if store::TOO_MANY <= out.len() || 1000 < share {
        return;
    }
    let n = out.len();
    // of each processor the place of its last record so far
    let mut last = waits::for_each(n as u32);
    for (i, step) in out.iter_mut().enumerate() {
        let p = store::processor_at(store, i);
        let gap = waits::gap_at(store, share, n, i, last[p]);
        *step = exact_at(times, gap, n as u32, i, last[p]);
        last[p] = i as u32;
    }
}

// Of each record 0 steps, where it is still at its original time, and `none` where it is not known yet how many.
pub fn end_ranks(originals: &[i64], times: &[i64], none: u32, ranks: &mut [u32])
    ensures { ranks.new ≡ end_ranks originals.now times.now none ranks.old }
{
    for (i, rank) in ranks.iter_mut().enumerate() {
        *rank = end_rank(time_at(times, i), time_at(originals, i), none);
    }
}
