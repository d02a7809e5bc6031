// How far the call comes, and what is shown of a trace whose times were found.
ghost use Rattle.report.specs.Put.{Put};
ghost use Rattle.showing.specs.Shown.{Wide, on_trace};
ghost use Rattle.chain.specs.Call.{WithPlaces};
ghost use Rattle.showing.specs.Inner.{ConcludedBy};

use crate::{Shows, chained, speak};
use answer::Counts;
use paper::{Asked, Fault};
use reach::Unreached;
use report::Said;

fn concluded(
    reached: Result<Counts, Unreached>,
    shows: Shows,
    asked: Asked,
    trace: &[u8],
    latencies: &[u32],
    line: &[u8],
    store: &[u32],
    sends: &[u32],
    new: &[i64],
    room: &mut [u8],
) -> usize
    requires { WithPlaces reached new.now sends.now × Wide room.old }
    ensures { ConcludedBy shows asked trace.now latencies.now line.now reached store.now sends.now new.now room.old result room.new }
{
    match reached {
        Ok(counts) => {
            let n = counts.listed;
            match shows {
                Shows::Messages => { deliveries::put_messages(store, &sends[..n], &new[..n], room) }
                Shows::Reasons => {
                    chained::of_line(asked, trace, latencies, line, store, &new[..n], room)
                }
            }
        }
        Err(Unreached::Refused(why)) => {
            speak::say_into(Said::Answered(answer::refused(why.fault, why.site)), room)
        }
        // never: the slices of a call are made for as many records as it may list
        Err(Unreached::Misfit) => {
            speak::say_into(
                Said::Answered(answer::refused_nowhere(Fault::NoTimes)),
                room,
            )
        }
    }
}

pub(crate) fn of_trace(
    shows: Shows,
    asked: Asked,
    trace: &[u8],
    latencies: &[u32],
    line: &[u8],
    room: &mut [u8],
) -> usize
    requires { Wide room.old }
    ensures { Put room.old 0 (on_trace shows asked line.now trace.now latencies.now) result room.new }
{
    let mut store = store::empty();
    let mut sends = seek::places();
    let mut new = seek::blanks();
    let reached = seek::seek(
        trace,
        latencies,
        asked,
        paper::MOST,
        &mut store,
        &mut sends,
        &mut new,
    );
    concluded(
        reached, shows, asked, trace, latencies, line, &store, &sends, &new, room,
    )
}
