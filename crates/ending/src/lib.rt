// The ending of a call whose times were found, by what the writing came to: 16, or acceptance, and the lent times by that answer.
#![tactic(auto)]

ghost use Rattle.std.specs.Prelude.{◌≡◌, ◌++◌, ◌≤◌, length, drop};
ghost use Rattle.ending.specs.Ending.{answer_for, times_after, EndedBy};

use answer::Counts;
use paper::{Answer, Fault};
use writing::Unwritten;

// "The first places hold the corrected times of the listed records in file order; later places are untouched."
fn copy_times(new: &[i64], times: &mut [i64])
    requires { length new.now ≤ length times.old }
    ensures { times.new ≡ new.now ++ drop (length new.now) times.old }
{
    times[..new.len()].copy_from_slice(new);
}

// 16, or acceptance with the written trace's length.
fn answer_for(counts: Counts, done: Result<usize, Unwritten>) -> Answer
    ensures { result ≡ answer_for counts done }
{
    match done {
        Ok(bytes) => answer::accepted(counts, bytes),
        // never unfit: the store is that of the trace, and the times that the clock condition settles are within the limit
        Err(Unwritten::NoRoom | Unwritten::Unfit) => answer::refused_nowhere(Fault::NoRoom),
    }
}

// The lent times are written at acceptance and not before. As many are lent as a call may list records; of fewer none is written.
fn keep_times(number: u64, new: &[i64], times: &mut [i64])
    ensures { times.new ≡ times_after number new.now times.old }
{
    if number == 0 && new.len() <= times.len() {
        copy_times(new, times);
    }
}

// The answer first, and the times by it.
pub fn answered(
    counts: Counts,
    done: Result<usize, Unwritten>,
    new: &[i64],
    times: &mut [i64],
) -> Answer
    ensures { EndedBy counts done new.now times.old result times.new }
{
    let answer = answer_for(counts, done);
    let number = answer.number;
    keep_times(number, new, times);
    answer
}
