// From the records in the store to their times: the messages matched, the tables laid out, the engine run. All of it goes on in slices
// that are lent, with a place for each record that is to be looked at.
#![tactic(auto)]

ghost use Rattle.std.specs.Prelude.{◌≡◌, [], ◌∷◌, length};
ghost use Rattle.store.specs.Layout.{capacity, entries_in};
ghost use Rattle.solve.specs.Outcome.{fitting, Keepable, kept_places, unmatched_as, unsettled_as, Tables, settled_by, SolvedInto};

use engine::{Unsettled, Waits};
use message::Unmatched;
use paper::Refusal;

// Why there are no times.
#[derive(Clone, Copy)]
pub enum Unsolved {
    Refused(Refusal),
    // no times exist
    Impossible,
    // the slices are not of one length, or longer than the store; or gaps are to be kept that no trace has
    Misfit,
}

impl From<Unmatched> for Unsolved {
    ghost from_gives = { λ unmatched e. e ≡ unmatched_as unmatched };

    fn from(unmatched: Unmatched) -> Unsolved {
        match unmatched {
            Unmatched::Refused(refusal) => Unsolved::Refused(refusal),
            Unmatched::Misfit => Unsolved::Misfit,
        }
    }
}

impl From<Unsettled> for Unsolved {
    ghost from_gives = { λ unsettled e. e ≡ unsettled_as unsettled };

    fn from(unsettled: Unsettled) -> Unsolved {
        match unsettled {
            Unsettled::Impossible => Unsolved::Impossible,
            Unsettled::Misfit => Unsolved::Misfit,
        }
    }
}

// The tables laid out, and the engine run on them.
fn settle_with(
    store: &[u32],
    table: &[u32],
    share: u32,
    sends: &[u32],
    before: &mut [u32],
    gap: &mut [u64],
    latency: &mut [u32],
    times: &mut [i64],
    spare: &mut [i64],
) -> Result<usize, Unsettled>
    requires { Tables share store.now sends.now before.old gap.old latency.old times.old spare.old }
    ensures { Keepable share (entries_in store.now (length times.old)) → settled_by share table.now (entries_in store.now (length times.old)) result times.new }
{
    waits::originals_into(store, times);
    waits::befores_into(store, before);
    waits::gaps_into(store, share, before, gap);
    waits::latencies_into(store, table, latency);
    clock::settle(
        Waits {
            before,
            gap,
            send: sends,
            latency,
        },
        times,
        spare,
    )
}

// Whether n records are not too many, are there, and have a place in every slice.
fn fit(
    n: usize,
    room: usize,
    sends: usize,
    before: usize,
    gap: usize,
    latency: usize,
    spare: usize,
) -> bool
    ensures { result ≡ fitting n room (sends ∷ before ∷ gap ∷ latency ∷ spare ∷ []) }
{
    n < store::TOO_MANY && n <= room && engine::all_are(n, sends, before, gap, latency, spare)
}

// At a share of 0 no gap is kept and none lent: the engine has rounds without gaps.
fn kept_places(share: u32, n: usize) -> usize
    ensures { result ≡ kept_places share n }
{
    if share == 0 { 0 } else { n }
}

// The times of the first records of the store, as many as times are lent. Of the lent slices `sends` and `times` come back with
// something in them; `before`, `gap`, `latency` and `spare` are room for the work.
pub fn solve(
    store: &[u32],
    table: &[u32],
    share: u32,
    sends: &mut [u32],
    before: &mut [u32],
    gap: &mut [u64],
    latency: &mut [u32],
    times: &mut [i64],
    spare: &mut [i64],
) -> Result<(usize, usize, usize), Unsolved>
    ensures { SolvedInto (fitting (length times.old) (capacity store.now) (length sends.old ∷ length before.old ∷ length gap.old ∷ length latency.old ∷ length spare.old ∷ [])) share table.now (entries_in store.now (length times.old)) result sends.new times.new }
{
    if !fit(
        times.len(),
        store::capacity(store),
        sends.len(),
        before.len(),
        gap.len(),
        latency.len(),
        spare.len(),
    ) {
        return Err(Unsolved::Misfit);
    }
    let (matched, unreceived) = message::match_messages(store, sends, before)?;
    let kept = kept_places(share, gap.len());
    let rounds = settle_with(
        store,
        table,
        share,
        sends,
        before,
        &mut gap[..kept],
        latency,
        times,
        spare,
    )?;
    Ok((matched, unreceived, rounds))
}
