// The answer that a call comes to: a refusal by its number, line and column, or acceptance with its verdict and its counts.
#![tactic(auto)]

mod list;

ghost use Rattle.std.specs.Prelude.{◌≡◌};
ghost use Rattle.paper.specs.Columns as columns;
ghost use Rattle.paper.specs.Numbers.{number_of};
ghost use Rattle.answer.specs.Answers.{refusal, acceptance, verdict_by};

pub use list::{filled_list, unfilled};
use paper::{Answer, Fault, Site};

// What is counted in an accepted trace.
#[derive(Clone, Copy)]
pub struct Counts {
    pub listed: usize,
    pub passed: usize,
    pub matched: usize,
    pub unreceived: usize,
    pub rounds: usize,
}

#[tactic(auto, unfolding(paper::specs::Numbers::number_of))]
pub fn number(fault: Fault) -> u64
    ensures { result ≡ number_of fault }
{
    match fault {
        Fault::BadChoice => 1,
        Fault::WrongLength => 2,
        Fault::HighLatency => 3,
        Fault::LongTrace => 4,
        Fault::Form => 5,
        Fault::Stamp => 6,
        Fault::Unlisted => 7,
        Fault::NotHandled => 8,
        Fault::Place => 9,
        Fault::NoMessage => 10,
        Fault::Backwards => 11,
        Fault::TooMany => 12,
        Fault::NoSend => 13,
        Fault::LongReceive => 14,
        Fault::NoTimes => 15,
        Fault::NoRoom => 16,
        Fault::OtherLevels => 17,
        Fault::SharedProcessor => 18,
        Fault::OtherStatistics => 19,
        Fault::NoPlace => 22,
    }
}

// "Every refusal returns its number and line, verdict 0 and all counts 0"
#[tactic(auto, unfolding(crate::specs::Answers::refusal))]
pub fn refused(fault: Fault, site: Site) -> Answer
    ensures { result ≡ refusal fault site }
{
    Answer {
        number: number(fault),
        line: site.line as u64,
        column: site.column as u64,
        verdict: 0,
        listed: 0,
        passed: 0,
        matched: 0,
        unreceived: 0,
        rounds: 0,
        written: 0,
    }
}

// No line, for what is refused as a whole.
pub fn nowhere() -> Site
    ensures { result ≡ columns.nowhere }
{
    Site { line: 0, column: 0 }
}

pub fn refused_nowhere(fault: Fault) -> Answer
    ensures { result ≡ refusal fault columns.nowhere }
{
    refused(fault, nowhere())
}

// "Verdict 3 exactly if no message matched; 2 exactly if some time moved; else 1." A time moved exactly if there was a round.
#[tactic(auto, unfolding(crate::specs::Answers::verdict_by, paper::specs::Answer::verdict_of))]
fn verdict(matched: usize, rounds: usize) -> u64
    ensures { result ≡ verdict_by matched rounds }
{
    if matched == 0 {
        return 3;
    }
    if 0 < rounds {
        return 2;
    }
    1
}

#[tactic(auto, unfolding(crate::specs::Answers::acceptance))]
pub fn accepted(counts: Counts, written: usize) -> Answer
    ensures { result ≡ acceptance counts written }
{
    Answer {
        number: 0,
        line: 0,
        column: 0,
        verdict: verdict(counts.matched, counts.rounds),
        listed: counts.listed as u64,
        passed: counts.passed as u64,
        matched: counts.matched as u64,
        unreceived: counts.unreceived as u64,
        rounds: counts.rounds as u64,
        written: written as u64,
    }
}
