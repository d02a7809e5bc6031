// Two traces merged into one: the other public call. "Refusal 1 comes first, then 4 to 12 of the first trace, then of the second, then 18,
// line 0, .. then 16": what the traces come to by themselves is said by crate both, the merged bytes are put into the room by weave.rt, and
// the room is not touched before all is decided. Both traces are lent for one lifetime, since a step hands back a part of either.
#![tactic(auto)]

mod weave;

ghost use Rattle.std.specs.Prelude.{◌≡◌};
ghost use Rattle.paper.specs.Merging as paper;
ghost use Rattle.paper.specs.Merging.{merged_bytes, on_merged, which_of, merged_of};
ghost use Rattle.merging.specs.Call.{merging, mergence, outcome, Counted};

use paper::{Fault, Joined, Merged, Tally, Unmerged, Which};

// "then 16", of two traces that may be merged.
fn put<'a>(
    first: &'a [u8],
    second: &'a [u8],
    a: Tally,
    b: Tally,
    room: &mut [u8],
) -> Result<Joined, Unmerged>
    requires { Counted first.now a × Counted second.now b }
    ensures { mergence result room.new ≡ on_merged (merging first.now second.now 0 room.old) a b (merged_bytes first.now second.now) }
{
    let written = first.len() + second.len();
    if room.len() < written {
        return Err(Unmerged {
            fault: Fault::NoRoom,
            which: Which::Neither,
            site: answer::nowhere(),
        });
    }
    weave::weave(first, second, room);
    let lines = a.listed + a.passed;
    Ok(Joined {
        lines: lines + (b.listed + b.passed),
        written: written as u64,
        first: a,
        second: b,
    })
}

// What the merging comes to, with what was counted of either trace.
pub fn join<'a>(
    first: &'a [u8],
    second: &'a [u8],
    choice: u32,
    room: &mut [u8],
) -> Result<Joined, Unmerged>
    ensures { mergence result room.new ≡ paper.join (merging first.now second.now choice room.old) }
{
    let unheard = Unmerged {
        fault: Fault::BadChoice,
        which: Which::Neither,
        site: answer::nowhere(),
    };
    let choice = clearance::choice_of(choice).ok_or(unheard)?;
    let (a, b) = both::read(choice, first, second)?;
    put(first, second, a, b, room)
}

fn which_of(which: Which) -> u64
    ensures { result ≡ which_of which }
{
    match which {
        Which::Neither => 0,
        Which::First => 1,
        Which::Second => 2,
    }
}

// "each says which trace it means, 0 for neither"
pub fn told(joint: Result<Joined, Unmerged>) -> Merged
    ensures { result ≡ merged_of joint }
{
    match joint {
        Err(Unmerged { fault, which, site }) => Merged {
            number: answer::number(fault),
            which: which_of(which),
            line: site.line as u64,
            column: site.column as u64,
            written: 0,
        },
        Ok(all) => Merged {
            number: 0,
            which: 0,
            line: 0,
            column: 0,
            written: all.written,
        },
    }
}

// The same in numbers.
pub fn merge<'a>(first: &'a [u8], second: &'a [u8], choice: u32, room: &mut [u8]) -> Merged
    ensures { outcome result room.new ≡ paper.merge (merging first.now second.now choice room.old) }
{
    told(join(first, second, choice, room))
}
