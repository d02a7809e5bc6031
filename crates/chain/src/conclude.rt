// "then a place not below the listed count is 22, line 0; then a list too short is 16", and the chain.
ghost use Rattle.std.specs.Prelude.{◌<◌, length};
ghost use Rattle.store.specs.Layout.{entries_in};
ghost use Rattle.chain.specs.Call.{Rooms, Found, ExplainedBy, WithPlaces, ConcludedBy};

use crate::exact::Records;
use answer::Counts;
use paper::{Fault, Filled};
use reach::Unreached;

impl Records<'_> {
    // The steps laid out, the fewest of each record counted, and the walk.
    fn explain_in(
        self,
        place: u64,
        spare: &mut [i64],
        before: &mut [u32],
        sends: &mut [u32],
        latency: &mut [u32],
        ranks: &mut [u32],
        after: &mut [u32],
        receive: &mut [u32],
        list: &mut [u64],
    ) -> Filled
        requires rooms { Rooms (length self.times.now) spare.old before.old sends.old latency.old ranks.old after.old receive.old }
        requires place_in_bounds { place < length self.times.now }
        ensures { ExplainedBy self.entry.share self.entry.latencies.now (entries_in self.entry.store.now (length self.entry.times.now)) self.entry.times.now sends.old place list.old result list.new }
    {
        self.steps_into(spare, before, sends, latency, ranks);
        ranks::ranks_into(before, sends, ranks, latency, after, receive);
        walk::fill(before, sends, ranks, place as u32, list)
    }

    // The times were found, and there is such a record. The arrays that the work needs beside what was found stand here.
    fn explain(self, place: u64, sends: &mut [u32], list: &mut [u64]) -> Filled
        requires { Found self.times.now sends.old place }
        ensures { ExplainedBy self.entry.share self.entry.latencies.now (entries_in self.entry.store.now (length self.entry.times.now)) self.entry.times.now sends.old place list.old result list.new }
    {
        let n = self.times.len();
        let mut spare = seek::blanks();
        let mut before = seek::places();
        let mut latency = seek::places();
        let mut ranks = seek::places();
        let mut after = seek::places();
        let mut receive = seek::places();
        self.explain_in(
            place,
            &mut spare[0..n],
            &mut before[0..n],
            sends,
            &mut latency[0..n],
            &mut ranks[0..n],
            &mut after[0..n],
            &mut receive[0..n],
            list,
        )
    }
}

pub(crate) fn conclude(
    reached: Result<Counts, Unreached>,
    latencies: &[u32],
    share: u32,
    place: u64,
    store: &[u32],
    times: &[i64],
    sends: &mut [u32],
    list: &mut [u64],
) -> Filled
    requires { WithPlaces reached times.now sends.old }
    ensures { ConcludedBy reached latencies.now share place store.now times.now sends.old list.old result list.new }
{
    match reached {
        Ok(counts) => {
            let n = counts.listed;
            if n as u64 <= place {
                return answer::unfilled(Fault::NoPlace, answer::nowhere());
            }
            let records = Records {
                store,
                times: &times[0..n],
                latencies,
                share,
            };
            records.explain(place, &mut sends[0..n], list)
        }
        Err(Unreached::Refused(refusal)) => answer::unfilled(refusal.fault, refusal.site),
        // never: the slices of a call are made for as many records as it may list
        Err(Unreached::Misfit) => answer::unfilled(Fault::NoTimes, answer::nowhere()),
    }
}
