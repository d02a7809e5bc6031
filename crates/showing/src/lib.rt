// What is shown of a trace, as text at the start of a room: its messages, or why the record on a line has its time; and whatever else
// is said there, by the lines that all programs have in common.
#![tactic(auto)]

mod chained;
mod found;
mod speak;

ghost use Rattle.report.specs.Put.{Put};
ghost use Rattle.report.specs.Said.{said_shown};
ghost use Rattle.showing.specs.Shown.{on_trace};

use paper::Asked;
use report::Said;

#[derive(Clone, Copy)]
pub enum Shows {
    Messages,
    Reasons,
}

// The room has a line of 256 bytes for each record that a trace may list, and one more.
pub fn show(
    shows: Shows,
    asked: Asked,
    trace: &[u8],
    latencies: &[u32],
    line: &[u8],
    room: &mut [u8; 524544],
) -> usize
    ensures { Put room.old 0 (on_trace shows asked line.now trace.now latencies.now) result room.new }
{
    found::of_trace(shows, asked, trace, latencies, line, room)
}

pub fn say(said: Said, room: &mut [u8; 524544]) -> usize
    ensures { Put room.old 0 (said_shown said) result room.new }
{
    speak::say_into(said, room)
}
