// How long the written trace is.
ghost use Rattle.std.specs.Prelude.{◌≡◌, ◌+◌, ◌-◌};
ghost use Rattle.writing.specs.Patched.{bytes_for};
ghost use Rattle.writing.specs.Outcome.{fit_of, answer_of};
ghost use Rattle.writing.specs.Inner.{Changed};

use crate::{Unwritten, moves};

// The bytes of the shortest time. Only what goes beyond them is counted, so that no sum wraps.
const LEAST: usize = 8;

fn sum(s: &[u8], store: &[u32], times: &[i64]) -> Option<(usize, usize)>
    ensures { Changed s.now (bytes_for s.now store.now times.now) result }
{
    let mut from: usize = 0;
    let mut gained: usize = 0;
    let mut lost: usize = 0;
    let mut k = moves::next_moved(store, times, 0);
    // no counting: from each moved record to the next
    while k < times.len() {
        let stamp = stamps::stamp_of(s, store, k);
        let new = shown::shown_length(times[k]);
        if !stamps::in_place(s.len() - from, s.len() - stamp.at, stamp.long, new) {
            return None;
        }
        gained += new - LEAST;
        lost += stamp.long - LEAST;
        from = stamp.at + stamp.long;
        k = moves::next_moved(store, times, k + 1);
    }
    Some((gained, lost))
}

// The answer for a trace of which some bytes are kept and some are gained.
fn against(kept: usize, gained: usize, most: usize) -> Result<usize, Unwritten>
    ensures { result ≡ fit_of (kept + gained) most }
{
    if most < kept || most - kept < gained {
        return Err(Unwritten::NoRoom);
    }
    Ok(kept + gained)
}

pub(crate) fn measure(
    s: &[u8],
    store: &[u32],
    times: &[i64],
    most: usize,
) -> Result<usize, Unwritten>
    ensures { result ≡ answer_of (bytes_for s.now store.now times.now) most }
{
    let (gained, lost) = sum(s, store, times).ok_or(Unwritten::Unfit)?;
    against(s.len() - lost, gained, most)
}
