// The answer of the matching: the first receive that calls for 13 or 14, or how many messages matched and how many sends were not
// received.
#![tactic(auto)]

ghost use Rattle.std.specs.Prelude.{◌≡◌, ◌<◌, length};
ghost use Rattle.paper.specs.Matching.{length_sent, matched_of, matched_count, unreceived_count};
ghost use Rattle.store.specs.Layout.{entries_in};
ghost use Rattle.chains.specs.Places.{places_of};
ghost use Rattle.message.specs.Outcome.{outcome, matching, answer_of, stop_at};

use paper::{Fault, Refusal, Role};

// Why no messages are matched.
#[derive(Clone, Copy)]
pub enum Unmatched {
    Refused(Refusal),
    // what was lent does not fit: `fitting`, specs/Outcome.antt
    Misfit,
}

impl From<Refusal> for Unmatched {
    ghost use Rattle.message.specs.declared.Unmatched.TheVariants.{Refused};

    ghost from_gives = { λ refusal e. e ≡ Refused refusal };

    fn from(refusal: Refusal) -> Unmatched {
        Unmatched::Refused(refusal)
    }
}

// ---- 13 and 14, and the counts

#[tactic(auto, unfolding(paper::specs::Matching::length_sent))]
fn length_sent(role: Role) -> u64
    ensures { result ≡ length_sent role }
{
    match role {
        Role::Send(m) => m.length,
        Role::Neither | Role::Receive(_) => 0,
    }
}

// What record i calls for: 13 where it is a receive without a send, 14 where it received more than was sent.
fn call_at(store: &[u32], sends: &[u32], i: usize) -> Result<(), Refusal>
    requires { (i < length sends.now) × (sends.now ≡ places_of (entries_in store.now (length sends.now))) }
    ensures { result ≡ stop_at (entries_in store.now (length sends.now)) i }
{
    let Role::Receive(m) = store::role_at(store, i) else {
        return Ok(());
    };
    let received = m.length;
    let s = sends[i] as usize;
    if sends.len() <= s {
        return Err(Refusal {
            fault: Fault::NoSend,
            site: store::site_at(store, i),
        });
    }
    let sent = length_sent(store::role_at(store, s));
    if sent < received {
        return Err(Refusal {
            fault: Fault::LongReceive,
            site: store::site_at(store, i),
        });
    }
    Ok(())
}

// The first receive in file order that calls for 13 or 14.
fn first_call(store: &[u32], sends: &[u32]) -> Result<(), Refusal>
    requires { sends.now ≡ places_of (entries_in store.now (length sends.now)) }
    ensures { result ≡ matched_of (entries_in store.now (length sends.now)) }
{
    for i in 0..sends.len() {
        call_at(store, sends, i)?;
    }
    Ok(())
}

// How many receives there are, and how many sends more than these.
fn counted(store: &[u32], n: usize) -> (usize, usize)
    ensures { result ≡ (matched_count (entries_in store.now n), unreceived_count (entries_in store.now n)) }
{
    let mut received: usize = 0;
    let mut sent: usize = 0;
    for i in 0..n {
        match store::role_at(store, i) {
            Role::Receive(_) => received += 1,
            Role::Send(_) => sent += 1,
            Role::Neither => {}
        }
    }
    (received, sent.saturating_sub(received))
}

fn answered(store: &[u32], sends: &[u32]) -> Result<(usize, usize), Unmatched>
    requires { sends.now ≡ places_of (entries_in store.now (length sends.now)) }
    ensures { result ≡ answer_of (entries_in store.now (length sends.now)) }
{
    first_call(store, sends)?;
    let counts = counted(store, sends.len());
    Ok(counts)
}

// ---- the call

// Matches the records of a store, as many as there are places for their sends: of each receive the place of its send, and where
// it has none, or is no receive, the number of records. The links are room for the work, as many as the places, and come back
// cleared.
pub fn match_messages(
    store: &[u32],
    sends: &mut [u32],
    link: &mut [u32],
) -> Result<(usize, usize), Unmatched>
    ensures { outcome result sends.new link.new ≡ matching store.now sends.old link.old }
{
    if link.len() != sends.len()
        || store::TOO_MANY <= sends.len()
        || store::capacity(store) < sends.len()
    {
        return Err(Unmatched::Misfit);
    }
    chains::find_sends(store, sends, link);
    answered(store, sends)
}
