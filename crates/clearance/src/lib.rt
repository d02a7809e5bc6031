// "1 to 4": what is asked of the choice and the two switches, the lent table, the number of lent times, the share and the size of the trace.
#![tactic(auto)]

ghost use Rattle.std.specs.Prelude.{◌≡◌};
ghost use Rattle.paper.specs.Answer.{choice_of, heard, low_latencies};
ghost use Rattle.clearance.specs.Clearance.{given_of, cleared_under, clearance};

use paper::{Asked, Choice, Fault};

// "1 (strict)", "2 (lenient)"
#[tactic(auto, unfolding(paper::specs::Answer::choice_of))]
pub fn choice_of(choice: u32) -> Option<Choice>
    ensures { result ≡ choice_of choice }
{
    match choice {
        1 => Some(Choice::Strict),
        2 => Some(Choice::Lenient),
        _ => None,
    }
}

#[tactic(auto, unfolding(paper::specs::Answer::heard))]
fn hear(asked: Asked) -> Option<Choice>
    ensures { result ≡ heard asked }
{
    if 1 < asked.levels || 1 < asked.statistics {
        return None;
    }
    choice_of(asked.choice)
}

// "each at most 1,000,000"
fn low_latencies(latencies: &[u32]) -> bool
    ensures { result ≡ low_latencies latencies.now }
{
    latencies.iter().all(|latency| *latency <= 1_000_000)
}

// 2 to 4, behind a choice.
#[tactic(auto, unfolding(crate::specs::Clearance::cleared_under, paper::specs::Answer::right_sizes, paper::specs::Answer::most, paper::specs::Answer::longest))]
fn check_sizes(
    choice: Choice,
    trace: &[u8],
    latencies: &[u32],
    asked: Asked,
    places: usize,
) -> Result<Choice, Fault>
    ensures { result ≡ cleared_under choice (given_of trace.now latencies.now asked places) }
{
    if latencies.len() != 4096 || places != paper::MOST || 1000 < asked.share {
        return Err(Fault::WrongLength);
    }
    if !low_latencies(latencies) {
        return Err(Fault::HighLatency);
    }
    if paper::LONGEST < trace.len() {
        return Err(Fault::LongTrace);
    }
    Ok(choice)
}

#[tactic(auto, unfolding(crate::specs::Clearance::clearance, crate::specs::Clearance::cleared_by))]
pub fn check(trace: &[u8], latencies: &[u32], asked: Asked, places: usize) -> Result<Choice, Fault>
    ensures { result ≡ clearance (given_of trace.now latencies.now asked places) }
{
    let choice = hear(asked).ok_or(Fault::BadChoice)?;
    check_sizes(choice, trace, latencies, asked, places)
}
