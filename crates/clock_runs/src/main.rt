// Runs the engine on document 01's sample traces, on rings and chains and at the limit, and prints each answer: the rounds and
// the times, all of them where they are few, else the last.
#![tactic(auto)]

ghost use Rattle.std.specs.Prelude.{◌<◌, ◌≤◌, length};

use engine::{Unsettled, Waits};

const STDOUT: i32 = 1;

const SIZE: usize = 2048;

const NONE: u32 = 2048;

fn word(text: &[u8]) {
    io::write_all(STDOUT, text);
}

// No time of these runs is negative.
fn number(t: i64) {
    word(b" ");
    match u64::try_from(t) {
        Ok(n) => {
            io::print_decimal(STDOUT, n);
        }
        Err(_) => word(b"below 0"),
    }
}

fn times_of(times: &[i64]) {
    let first = if times.len() > 8 { times.len() - 1 } else { 0 };
    for time in &times[first..] {
        number(*time);
    }
}

fn show(answer: Result<usize, Unsettled>, times: &[i64]) {
    match answer {
        Ok(k) => {
            word(b"rounds ");
            io::print_decimal(STDOUT, k as u64);
            word(b":");
            times_of(times);
            word(b"\n");
        },
        Err(Unsettled::Impossible) => word(b"impossible\n"),
        Err(Unsettled::Misfit) => word(b"misfit\n"),
    }
}

fn keeping(name: &[u8], times: &mut [i64], waits: Waits) {
    let mut spare = [0i64; SIZE];
    let n = times.len();
    if n > SIZE {
        return;
    }
    word(name);
    let answer = clock::settle(waits, times, &mut spare[0..n]);
    show(answer, times);
}

// No gaps are lent, and none is kept.
fn run(name: &[u8], times: &mut [i64], before: &[u32], send: &[u32], latency: &[u32]) {
    keeping(
        name,
        times,
        Waits {
            before,
            gap: &[],
            send,
            latency,
        },
    );
}

// Trace A, all latencies the same, and its first three lines.
fn trace_a(name: &[u8], latency: u32) {
    run(
        name,
        &mut [10, 12, 9, 11, 13],
        &[NONE, 0, NONE, 2, 1],
        &[NONE, NONE, 0, NONE, 3],
        &[latency; 5],
    );
}

// Trace A under latencies of 5, with these gaps from line 1 to 2, from 3 to 4 and from 2 to 5.
fn kept_a(name: &[u8], first: u64, second: u64, third: u64) {
    keeping(
        name,
        &mut [10, 12, 9, 11, 13],
        Waits {
            before: &[NONE, 0, NONE, 2, 1],
            gap: &[0, first, 0, second, third],
            send: &[NONE, NONE, 0, NONE, 3],
            latency: &[5; 5],
        },
    );
}

fn first_three(name: &[u8]) {
    run(
        name,
        &mut [10, 12, 9],
        &[NONE, 0, NONE],
        &[NONE, NONE, 0],
        &[5; 3],
    );
}

// Trace B, with a latency from processor 0 to processor 1, and with its lines 3 and 4 put first.
fn trace_b(name: &[u8], latency: u32) {
    run(
        name,
        &mut [1, 2, 3, 4],
        &[NONE, 0, NONE, 2],
        &[3, NONE, 1, NONE],
        &[0, 0, latency, 0],
    );
}

fn turned_b(name: &[u8]) {
    run(
        name,
        &mut [3, 4, 1, 2],
        &[NONE, 0, NONE, 2],
        &[3, NONE, 1, NONE],
        &[0; 4],
    );
}

// Trace B with latencies of 0 and a gap on either processor.
fn kept_b(name: &[u8], gap: u64) {
    keeping(
        name,
        &mut [1, 2, 3, 4],
        Waits {
            before: &[NONE, 0, NONE, 2],
            gap: &[0, gap, 0, gap],
            send: &[3, NONE, 1, NONE],
            latency: &[0; 4],
        },
    );
}

// Every second record from `first` on waits for the one before it.
fn links(to: &mut [u32], first: usize)
    requires first_nonzero { 0 < first }
    requires to_len_bound { length to.old ≤ 2048 }
{
    for i in (first..to.len()).step_by(2) {
        to[i] = (i - 1) as u32;
    }
}

// Each of 64 processors receives from the last one and then sends to the next.
fn ring(name: &[u8], latency: u32) {
    let mut times = [0i64; 128];
    let mut before = [NONE; 128];
    let mut send = [NONE; 128];
    times[127] = 9;
    links(&mut before, 1);
    links(&mut send, 2);
    send[0] = 127;
    run(name, &mut times, &before, &send, &[latency; 128]);
}

// One processor whose first time is late.
fn chain(name: &[u8]) {
    let mut times = [0i64; SIZE];
    let mut before = [NONE; SIZE];
    times[0] = 7;
    links(&mut before, 1);
    links(&mut before, 2);
    run(name, &mut times, &before, &[NONE; SIZE], &[0; SIZE]);
}

// The largest time, and a message that takes so long.
fn limit(name: &[u8], latency: u32) {
    run(
        name,
        &mut [999_999_999_999_999, 999_999_999_999_999],
        &[NONE, NONE],
        &[NONE, 0],
        &[0, latency],
    );
}

// The least time that there is, received after a later one was sent.
fn lowest(name: &[u8]) {
    run(
        name,
        &mut [5, -9_223_372_036_854_775_808],
        &[NONE, NONE],
        &[NONE, 0],
        &[0, 2],
    );
}

fn too_few(name: &[u8]) {
    keeping(
        name,
        &mut [1, 2, 3, 4],
        Waits {
            before: &[NONE, 0, NONE, 2],
            gap: &[0, 0, 0],
            send: &[3, NONE, 1, NONE],
            latency: &[0; 4],
        },
    );
}

// Two records of a processor at the ends of the format, and a gap between them.
fn ends(name: &[u8], gap: u64) {
    keeping(
        name,
        &mut [-999_999_999_999_999, 999_999_999_999_999],
        Waits {
            before: &[NONE, 0],
            gap: &[0, gap],
            send: &[NONE, NONE],
            latency: &[0, 0],
        },
    );
}

fn empty(name: &[u8]) {
    run(name, &mut [], &[], &[], &[]);
}

// A send too few.
fn misfit(name: &[u8]) {
    run(name, &mut [1, 2], &[NONE, 0], &[NONE], &[0, 0]);
}

fn samples() {
    trace_a(b"P1 ", 5);
    first_three(b"P2 ");
    trace_a(b"P3 ", 0);
    empty(b"P5 ");
    trace_b(b"P6 ", 0);
    trace_b(b"P7 ", 1);
}

fn gaps() {
    kept_a(b"A, half the gaps kept: ", 1, 1, 0);
    kept_a(b"A, all gaps kept: ", 2, 2, 1);
    kept_b(b"B, gaps of 0: ", 0);
    kept_b(b"B, gaps of 1: ", 1);
    kept_b(b"B, gaps past the limit: ", 600_000_000_000_000);
    too_few(b"B, a gap too few: ");
    ends(b"widest gap: ", 1_999_999_999_999_998);
    ends(b"a wider gap: ", 1_999_999_999_999_999);
    ends(b"the largest number: ", 18_446_744_073_709_551_615);
}

fn long_waits() {
    turned_b(b"B with lines 3 and 4 first: ");
    ring(b"ring of 64, latencies 0: ", 0);
    ring(b"ring of 64, latencies 1: ", 1);
    chain(b"chain of 2048: ");
}

fn edges() {
    limit(b"largest time, latency 0: ", 0);
    limit(b"largest time, latency 1: ", 1);
    lowest(b"lowest number: ");
    misfit(b"a send too few: ");
}

fn main() {
    samples();
    gaps();
    long_waits();
    edges();
}
