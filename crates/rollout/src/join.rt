// The program's arguments as one line, each ended by a zero byte.
ghost use Rattle.std.specs.Prelude.{◌≤◌, length};
ghost use Rattle.io.specs.Counts.{IsPrefixLen};

use std::rt::Env;

// A word behind the others, where there is room for it.
fn append(line: &mut [u8], at: usize, word: &[u8]) -> usize
    requires { at ≤ length line.old }
    ensures { result ≤ length line.old }
{
    if line.len() - at <= word.len() {
        return at;
    }
    let end = at + word.len();
    line[at..end].copy_from_slice(word);
    line[end] = 0;
    end + 1
}

// An argument longer than any file's name is handed on as an empty one, which is bad in every place.
fn append_argument<R: Env>(rt: &R, line: &mut [u8], at: usize, k: usize) -> usize
    requires { at ≤ length line.old }
    ensures { result ≤ length line.old }
{
    let mut word = io::buffer();
    let n = invocation::argument(rt, k, &mut word);
    append(line, at, &word[..n])
}

// Fifteen arguments find room in 65,536 bytes, and of fifteen one is bad: nothing that is left out behind them could change what is said.
pub(crate) fn arguments<R: Env>(rt: &R, line: &mut [u8; 65536]) -> usize
    ensures { IsPrefixLen result line.new }
{
    let mut at = 0;
    for k in 1..invocation::count(rt) {
        at = append_argument(rt, line, at, k);
    }
    at
}
