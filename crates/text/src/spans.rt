// What a line sets, put into the table: a row for each sender, and in each row the receivers. A line of one pair costs one store.
ghost use Rattle.std.specs.Prelude.{◌≡◌, ◌≤◌, length};
ghost use Rattle.text.specs.Held.{Spans, Filled, RowsFilled, RuleSet, SaidInto};

use rule::{Rule, Who};

// The processors from `from` up to, not including, `to`.
#[derive(Clone, Copy)]
pub(crate) struct Span {
    pub from: usize,
    pub to: usize,
}

// None where it is no processor at all.
fn span_of(who: Who) -> Span
    ensures { Spans who result }
{
    match who {
        Who::Every => Span { from: 0, to: 64 },
        Who::One(processor) if processor < 64 => Span {
            from: processor,
            to: processor + 1,
        },
        Who::One(_) => Span { from: 0, to: 0 },
    }
}

fn fill(latencies: &mut [u32], from: usize, to: usize, n: u32)
    requires { (from ≤ to) × (to ≤ length latencies.old) }
    ensures { Filled from to n latencies.old latencies.new }
{
    latencies[from..to].fill(n);
}

fn fill_rows(latencies: &mut [u32], senders: Span, receivers: Span, n: u32)
    requires { (length latencies.old ≡ 4096) × (senders.to ≤ 64) × (senders.from ≤ senders.to) × (receivers.from ≤ receivers.to) × (receivers.to ≤ 64) }
    ensures { RowsFilled senders.from senders.to receivers.from receivers.to n latencies.old latencies.new }
{
    for s in senders.from..senders.to {
        fill(latencies, 64 * s + receivers.from, 64 * s + receivers.to, n);
    }
}

fn put_rule(rule: Rule, latencies: &mut [u32])
    requires { length latencies.old ≡ 4096 }
    ensures { RuleSet rule latencies.old latencies.new }
{
    let senders = span_of(rule.sender);
    let receivers = span_of(rule.receiver);
    fill_rows(latencies, senders, receivers, rule.latency);
}

// A line that says nothing leaves the table alone.
#[tactic(auto, unfolding(crate::specs::Held::SaidInto))]
pub(crate) fn put_said(said: Option<Rule>, latencies: &mut [u32])
    requires { length latencies.old ≡ 4096 }
    ensures { SaidInto said latencies.old latencies.new }
{
    if let Some(rule) = said {
        put_rule(rule, latencies);
    }
}
