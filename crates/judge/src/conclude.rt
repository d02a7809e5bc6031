// "then 16", and acceptance: only here is anything lent written.
ghost use Rattle.judge.specs.Call.{FinishedBy, WithPlaces, ConcludedBy};

use answer::Counts;
use paper::{Answer, Fault};
use reach::Unreached;

// The times were found: the trace written where it is wanted, and the answer by that.
fn finish(
    counts: Counts,
    trace: &[u8],
    store: &[u32],
    new: &[i64],
    times: &mut [i64],
    wanted: bool,
    room: &mut [u8],
) -> Answer
    ensures { FinishedBy counts trace.now store.now new.now times.old wanted room.old result times.new room.new }
{
    let done = if wanted {
        writing::write_trace(trace, store, new, room)
    } else {
        Ok(0)
    };
    ending::answered(counts, done, new, times)
}

pub(crate) fn conclude(
    reached: Result<Counts, Unreached>,
    trace: &[u8],
    store: &[u32],
    new: &[i64],
    times: &mut [i64],
    wanted: bool,
    room: &mut [u8],
) -> Answer
    requires { WithPlaces reached new.now }
    ensures { ConcludedBy reached trace.now store.now new.now times.old wanted room.old result times.new room.new }
{
    match reached {
        Ok(counts) => {
            let new = &new[..counts.listed];
            finish(counts, trace, store, new, times, wanted, room)
        }
        Err(Unreached::Refused(refusal)) => answer::refused(refusal.fault, refusal.site),
        // never: the slices of a call are made for as many records as it may list
        Err(Unreached::Misfit) => answer::refused_nowhere(Fault::NoTimes),
    }
}
