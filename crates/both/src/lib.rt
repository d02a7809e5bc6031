// Two traces read by themselves, one after the other into one store: "4 to 12 of the first trace, then of the second, then 18, line 0".
#![tactic(auto)]

ghost use Rattle.std.specs.Prelude.{◌≡◌};
ghost use Rattle.paper.specs.Merging.{most_alone, both_of};
ghost use Rattle.store.specs.Layout.{capacity};
ghost use Rattle.both.specs.Alone.{AloneInto, tally_in, stop_in, BehindFirst};

use paper::{Choice, Fault, Refusal, Tally, Unmerged, Which};
use trace::Read;

// "4 to 12" of one trace; its records go into the store.
fn read_alone(choice: Choice, s: &[u8], store: &mut [u32]) -> Read
    requires { capacity store.old ≡ most_alone }
    ensures { AloneInto choice s.now store.old result store.new }
{
    if paper::LONGEST < s.len() {
        return Read {
            stop: Err(Refusal {
                fault: Fault::LongTrace,
                site: answer::nowhere(),
            }),
            listed: 0,
            passed: 0,
        };
    }
    trace::read_trace(choice, s, store)
}

// What stopped the reading of one of the two, if anything did.
fn stopped(which: Which, stop: Result<(), Refusal>) -> Result<(), Unmerged>
    ensures { result ≡ stop_in which stop }
{
    match stop {
        Ok(()) => Ok(()),
        Err(Refusal { fault, site }) => Err(Unmerged { fault, which, site }),
    }
}

fn tally(read: Read) -> Tally
    ensures { result ≡ tally_in read }
{
    Tally {
        listed: read.listed as u64,
        passed: read.passed as u64,
    }
}

// "then of the second, then 18", where the first passed; `held` are the processors of its records.
fn read_second(
    choice: Choice,
    second: &[u8],
    a: Tally,
    held: [bool; 64],
    store: &mut [u32],
) -> Result<(Tally, Tally), Unmerged>
    requires { capacity store.old ≡ most_alone }
    ensures { BehindFirst choice second.now a held result }
{
    let b = read_alone(choice, second, store);
    stopped(Which::Second, b.stop)?;
    if common::shares(store, b.listed, held) {
        return Err(Unmerged {
            fault: Fault::SharedProcessor,
            which: Which::Neither,
            site: answer::nowhere(),
        });
    }
    Ok((a, tally(b)))
}

pub fn read(choice: Choice, first: &[u8], second: &[u8]) -> Result<(Tally, Tally), Unmerged>
    ensures { result ≡ both_of choice first.now second.now }
{
    let mut store = store::empty();
    let a = read_alone(choice, first, &mut store);
    stopped(Which::First, a.stop)?;
    let held = common::held(&store, a.listed);
    read_second(choice, second, tally(a), held, &mut store)
}
