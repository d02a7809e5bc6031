// The chain of the record on a line of the file, and its text.
ghost use Rattle.std.specs.Prelude.{◌≡◌, ◌≤◌, length, take};
ghost use Rattle.store.specs.Layout.{entries_in};
ghost use Rattle.waits.specs.Tables.{befores_of, gaps_by, latencies_of};
ghost use Rattle.report.specs.Put.{Put};
ghost use Rattle.showing.specs.Chained.{lent_list, answer_of, filled_shown, chain_shown};
ghost use Rattle.paper.specs.Filling.{query};
ghost use Rattle.showing.specs.Shown.{Wide, on_line};

use crate::speak;
use paper::{Answer, Asked, Filled};
use report::Said;

// A number for each record that a trace may list.
fn zeros() -> [u64; 2048]
    ensures { result ≡ lent_list }
{
    [0; 2048]
}

// ---- a chain's text. A trace that has times has no share above 1,000

// Of each of the first n records the one before it on its processor.
fn befores(store: &[u32], n: usize) -> [u32; 2048]
    requires { n ≤ 2048 }
    ensures { take n result ≡ befores_of (entries_in store.now n) }
{
    let mut table = seek::places();
    waits::befores_into(store, &mut table[..n]);
    table
}

// Of each of the first n records the gap that it keeps from the one before it.
fn gaps(store: &[u32], share: u32, before: &[u32], n: usize) -> [u64; 2048]
    requires { n ≤ 2048 }
    ensures { share ≤ 1000 → take n result ≡ gaps_by share (entries_in store.now n) before.now }
{
    let mut table = zeros();
    waits::gaps_into(store, share, before, &mut table[..n]);
    table
}

// Of each of the first n records the latency from its send.
fn latencies_of(store: &[u32], latencies: &[u32], n: usize) -> [u32; 2048]
    requires { n ≤ 2048 }
    ensures { take n result ≡ latencies_of latencies.now (entries_in store.now n) }
{
    let mut table = seek::places();
    waits::latencies_into(store, latencies, &mut table[..n]);
    table
}

fn put_chain(
    share: u32,
    latencies: &[u32],
    store: &[u32],
    times: &[i64],
    chain: &[u64],
    room: &mut [u8],
) -> usize
    requires { (length times.now ≤ 2048) × (length chain.now ≤ 2048) × Wide room.old }
    ensures { share ≤ 1000 → Put room.old 0 (chain_shown share latencies.now (entries_in store.now (length times.now)) times.now chain.now) result room.new }
{
    let n = times.len();
    let before = befores(store, n);
    let gap = gaps(store, share, &before[..n], n);
    let latency = latencies_of(store, latencies, n);
    reasons::put_reasons(
        store,
        times,
        &before[..n],
        &gap[..n],
        &latency[..n],
        chain,
        room,
    )
}

// ---- what the call came to

// Its refusal, as the report has one.
fn answer_of(filled: Filled) -> Answer
    ensures { result ≡ answer_of filled }
{
    Answer {
        number: filled.number,
        line: filled.line,
        column: filled.column,
        verdict: 0,
        listed: 0,
        passed: 0,
        matched: 0,
        unreceived: 0,
        rounds: 0,
        written: 0,
    }
}

fn told(
    filled: Filled,
    share: u32,
    latencies: &[u32],
    store: &[u32],
    times: &[i64],
    chain: &[u64],
    room: &mut [u8],
) -> usize
    requires { (length times.now ≤ 2048) × (length chain.now ≤ 2048) × Wide room.old }
    ensures { share ≤ 1000 → Put room.old 0 (filled_shown filled share latencies.now (entries_in store.now (length times.now)) times.now chain.now) result room.new }
{
    if filled.number != 0 {
        return speak::say_into(Said::Answered(answer_of(filled)), room);
    }
    put_chain(share, latencies, store, times, chain, room)
}

// ---- the call

pub(crate) fn of_line(
    asked: Asked,
    trace: &[u8],
    latencies: &[u32],
    line: &[u8],
    store: &[u32],
    times: &[i64],
    room: &mut [u8],
) -> usize
    requires { (length times.now ≤ 2048) × Wide room.old }
    ensures { asked.share ≤ 1000 → Put room.old 0 (on_line (query trace.now latencies.now asked) line.now (entries_in store.now (length times.now)) times.now) result room.new }
{
    let at = lookup::place_on(store, times.len(), line);
    let mut list = zeros();
    let filled = chain::chain(trace, latencies, asked, at as u64, &mut list);
    let n = filled.filled as usize;
    told(
        filled,
        asked.share,
        latencies,
        store,
        times,
        &list[..n],
        room,
    )
}
