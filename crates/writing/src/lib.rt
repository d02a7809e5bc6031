// The corrected trace written into a lent room: the trace's bytes with the timestamps of the moved records replaced. A timestamp that
// did not move is the same bytes, so that only the moved ones are looked up, where the store says that their lines start, and all
// between them is copied. A first pass measures, so that a room that is too short stays untouched, and a second one writes.
#![tactic(auto)]

mod fill;
mod measure;
mod moves;
mod put;

ghost use Rattle.writing.specs.Outcome.{WrittenInto};

// Why the room was left as it was. Unfit: the store or the times are not those of this trace, as a timestamp is not where the store says, or
// a time is beyond 999,999,999,999,999 on either side of zero.
#[derive(Clone, Copy)]
pub enum Unwritten {
    NoRoom,
    Unfit,
}

// The trace s with the times of the records in the store, which stand in the order of the file.
pub fn write_trace(
    s: &[u8],
    store: &[u32],
    times: &[i64],
    room: &mut [u8],
) -> Result<usize, Unwritten>
    ensures { WrittenInto s.now store.now times.now room.old result room.new }
{
    let n = measure::measure(s, store, times, room.len())?;
    fill::fill(s, store, times, room);
    Ok(n)
}
