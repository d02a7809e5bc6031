// 19: whether the statistics records with event field -1 tell what the records before them on their processor come to. The records of the
// store are gone over in their order, with what they come to so far beside them; a statistics line is read again where the store says that it
// starts.
#![tactic(auto)]

mod key;
mod line;
mod pair;
mod tally;
mod tell;
mod total;

ghost use Rattle.std.specs.Prelude.{◌≡◌, length};
ghost use Rattle.paper.specs.Reading.{lines_of};
ghost use Rattle.paper.specs.Statistics.{compared_from};
ghost use Rattle.store.specs.Layout.{entries_in};
ghost use Rattle.statistics.specs.Ready.{Lacks, Sized, AllHeld, Holding, Ready};

use crate::total::Sums;
use paper::{Fault, Refusal};

// The most records of which times are summed modulo 2^64: `summed` in paper.
const SUMMED: usize = 18445;

// More records than that, or a slice without a place for each of them.
#[tactic(auto, unfolding(paper::specs::Statistics::summed))]
fn misfit(records: usize, counts: usize, times: usize, lengths: usize) -> bool
    ensures { Lacks (Sized records counts times lengths) result }
{
    SUMMED < records || counts != records || times != records || lengths != records
}

// "A difference is refusal 19 at the first statistics line in the file that has one".
fn first_difference(
    trace: &[u8],
    store: &[u32],
    link: &mut [u32],
    counts: &mut [u32],
    times: &mut [i64],
    lengths: &mut [i64],
) -> Result<(), Refusal>
    requires { Sized (length link.old) (length counts.old) (length times.old) (length lengths.old) × AllHeld store.now (length link.old) }
    ensures { Holding trace.now store.now (length link.old) → result ≡ compared_from (lines_of trace.now) (entries_in store.now (length link.old)) 0 (entries_in store.now (length link.old)) }
{
    let mut heads = tally::heads();
    for i in 0..link.len() {
        let sums = Sums {
            store,
            link,
            counts,
            times,
            lengths,
            heads: &heads,
        };
        if line::line_differs(trace, sums, i) {
            return Err(Refusal {
                fault: Fault::OtherStatistics,
                site: store::site_at(store, i),
            });
        }
        tally::add(store, link, counts, times, lengths, &mut heads, i);
    }
    Ok(())
}

// Of the records of a store, as many as the slices have places. The slices are room for the work.
pub fn compare(
    trace: &[u8],
    store: &[u32],
    link: &mut [u32],
    counts: &mut [u32],
    times: &mut [i64],
    lengths: &mut [i64],
) -> Result<(), Refusal>
    ensures { Ready trace.now store.now (length link.old) (length counts.old) (length times.old) (length lengths.old) → result ≡ compared_from (lines_of trace.now) (entries_in store.now (length link.old)) 0 (entries_in store.now (length link.old)) }
{
    if misfit(link.len(), counts.len(), times.len(), lengths.len()) {
        return Ok(());
    }
    // never, of a store that a trace was read into
    if total::any_beyond(store, link.len()) {
        return Ok(());
    }
    first_difference(trace, store, link, counts, times, lengths)
}
