// "then line by line, the first bad line deciding", then 17, then 19, "then the first receive in file order that calls for 13 or 14 ..; then 15".
ghost use Rattle.std.specs.Prelude.{◌≤◌, ◌≡◌, length};
ghost use Rattle.paper.specs.Answer.{longest};
ghost use Rattle.paper.specs.Reading.{read_of};
ghost use Rattle.paper.specs.Statistics.{statistics_of};
ghost use Rattle.store.specs.Layout.{capacity, entries_in};
ghost use Rattle.solve.specs.Outcome.{Keepable};
ghost use Rattle.reach.specs.Lines.{Sized, SettledBy, Comparable, from_lines};

use crate::Unreached;
use answer::Counts;
use paper::{Asked, Choice, Refusal};

// The times of the records that were read.
fn settle(
    latencies: &[u32],
    share: u32,
    store: &[u32],
    listed: usize,
    passed: usize,
    sends: &mut [u32],
    before: &mut [u32],
    gap: &mut [u64],
    latency: &mut [u32],
    times: &mut [i64],
    spare: &mut [i64],
) -> Result<Counts, Unreached>
    requires sized { Sized (length sends.old) sends.old before.old gap.old latency.old times.old spare.old }
    requires listed_in_bounds { (listed ≤ length sends.old) × (listed ≤ capacity store.now) }
    requires keepable { Keepable share (entries_in store.now listed) }
    ensures { SettledBy share latencies.now (entries_in store.now listed) listed passed result sends.new times.new }
{
    let (matched, unreceived, rounds) = solve::solve(
        store,
        latencies,
        share,
        &mut sends[0..listed],
        &mut before[0..listed],
        &mut gap[0..listed],
        &mut latency[0..listed],
        &mut times[0..listed],
        &mut spare[0..listed],
    )?;
    Ok(Counts {
        listed,
        passed,
        matched,
        unreceived,
        rounds,
    })
}

// 19, where the statistics are asked for. The slices are those of the times to come, which are room here.
fn compare(
    asked: Asked,
    trace: &[u8],
    store: &[u32],
    listed: usize,
    before: &mut [u32],
    latency: &mut [u32],
    times: &mut [i64],
    spare: &mut [i64],
) -> Result<(), Refusal>
    requires { Comparable trace.now store.now listed before.old latency.old times.old spare.old }
    ensures { result ≡ statistics_of asked trace.now (entries_in store.now listed) }
{
    if asked.statistics != 1 {
        return Ok(());
    }
    statistics::compare(
        trace,
        store,
        &mut latency[0..listed],
        &mut before[0..listed],
        &mut times[0..listed],
        &mut spare[0..listed],
    )
}

// The lines into the store, and the times of the records there. "After the lines are read, and before 13, refuse with 17"; "after the line checks
// and 17, before 13", with 19.
pub(crate) fn read(
    choice: Choice,
    asked: Asked,
    trace: &[u8],
    latencies: &[u32],
    store: &mut [u32],
    sends: &mut [u32],
    before: &mut [u32],
    gap: &mut [u64],
    latency: &mut [u32],
    times: &mut [i64],
    spare: &mut [i64],
) -> Result<Counts, Unreached>
    requires trace_len_bound { (length trace.now ≤ longest) × (asked.share ≤ 1000) }
    requires sized { Sized (capacity store.old) sends.old before.old gap.old latency.old times.old spare.old }
    ensures { from_lines trace.now latencies.now asked choice (read_of choice (capacity store.old) trace.now) result store.new sends.new times.new }
{
    let read = trace::read_trace(choice, trace, store);
    read.stop?;
    levels::check(store, read.listed, asked)?;
    compare(
        asked,
        trace,
        store,
        read.listed,
        before,
        latency,
        times,
        spare,
    )?;
    settle(
        latencies,
        asked.share,
        store,
        read.listed,
        read.passed,
        sends,
        before,
        gap,
        latency,
        times,
        spare,
    )
}
