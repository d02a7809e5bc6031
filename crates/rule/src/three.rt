// "SENDER RECEIVER MICROSECONDS", read by a cursor.
ghost use Rattle.std.specs.Prelude.{◌≡◌, ◌≤◌, length, drop};
ghost use Rattle.rule.specs.Rule.{last_of, three};
ghost use Rattle.rule.specs.Cursor.{Names};

use crate::{Rule, Who, whom, words};

// Whom a word names, and where the next word begins.
#[derive(Clone, Copy)]
pub(crate) struct Named {
    pub who: Option<Who>,
    pub next: usize,
}

fn named_at(line: &[u8], at: usize) -> Named
    requires { at ≤ length line.now }
    ensures { Names line.now at result }
{
    let end = words::word_end(line, at);
    let who = whom::who_is(&line[at..end]);
    let next = words::word_start(line, end);
    Named { who, next }
}

// A latency, behind which nothing stands.
fn last_at(line: &[u8], at: usize) -> Option<u32>
    requires { at ≤ length line.now }
    ensures { result ≡ last_of (drop at line.now) }
{
    let end = words::word_end(line, at);
    if words::word_start(line, end) < line.len() {
        return None;
    }
    let latency = whom::number(&line[at..end], 1_000_000)?;
    Some(latency as u32)
}

// The words from the cursor on.
pub(crate) fn read_three(line: &[u8], at: usize) -> Option<Rule>
    requires { at ≤ length line.now }
    ensures { result ≡ three (drop at line.now) }
{
    let first = named_at(line, at);
    let second = named_at(line, first.next);
    let sender = first.who?;
    let receiver = second.who?;
    let latency = last_at(line, second.next)?;
    Some(Rule {
        sender,
        receiver,
        latency,
    })
}
