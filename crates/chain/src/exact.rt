// The steps of chains, from the records and their times.
ghost use Rattle.std.specs.Prelude.{length};
ghost use Rattle.store.specs.Layout.{entries_in};
ghost use Rattle.chain.specs.Call.{Slices, Stepped};

// The records in the store with their times, and what they wait by: the latencies, and the share of its gap that a record keeps.
#[derive(Clone, Copy)]
pub(crate) struct Records<'a> {
    pub(crate) store: &'a [u32],
    pub(crate) times: &'a [i64],
    pub(crate) latencies: &'a [u32],
    pub(crate) share: u32,
}

impl Records<'_> {
    // Into `before` the processor's steps, into `sends`, which holds the places of the sends, the send's; into `ranks` a 0 for each record that is
    // still at its original time. `originals` and `latency` are room for the work.
    pub(crate) fn steps_into(
        self,
        originals: &mut [i64],
        before: &mut [u32],
        sends: &mut [u32],
        latency: &mut [u32],
        ranks: &mut [u32],
    )
        requires { Slices (length self.times.now) originals.old before.old sends.old latency.old ranks.old }
        ensures { Stepped self.entry.share self.entry.latencies.now (entries_in self.entry.store.now (length self.entry.times.now)) self.entry.times.now sends.old ranks.old before.new sends.new ranks.new }
    {
        let none = self.times.len() as u32;
        waits::originals_into(self.store, originals);
        waits::latencies_into(self.store, self.latencies, latency);
        steps::processor_steps(self.store, self.times, self.share, before);
        steps::keep_exact(self.times, latency, none, sends);
        steps::end_ranks(originals, self.times, none, ranks);
    }
}
