// One line of a text of latencies: what it says, or that it is bad. What a text of such lines means is the crate text's to say.
#![tactic(auto)]

mod three;
mod whom;
mod words;

ghost use Rattle.std.specs.Prelude.{◌≡◌};
ghost use Rattle.rule.specs.Words.{trimmed};
ghost use Rattle.rule.specs.Rule.{on_words, meaning_of};

// Whom a word names: every processor, or one of them.
#[derive(Clone, Copy)]
pub enum Who {
    Every,
    One(usize),
}

// The latency from a sender to a receiver, in microseconds.
#[derive(Clone, Copy)]
pub struct Rule {
    pub sender: Who,
    pub receiver: Who,
    pub latency: u32,
}

// A line that is neither blank nor three words that can be read.
#[derive(Clone, Copy)]
pub struct BadLine;

// "`#` for a comment to the line's end": what is read ends before it. A blank line says nothing.
pub fn read_line(line: &[u8]) -> Result<Option<Rule>, BadLine>
    ensures { result ≡ meaning_of line.now }
{
    let end = octets::find(line, 0, b'#');
    read_words(&line[..end])
}

// "blank lines", or three words
fn read_words(line: &[u8]) -> Result<Option<Rule>, BadLine>
    ensures { result ≡ on_words (trimmed line.now) }
{
    let start = words::word_start(line, 0);
    if start == line.len() {
        return Ok(None);
    }
    let rule = three::read_three(line, start).ok_or(BadLine)?;
    Ok(Some(rule))
}
