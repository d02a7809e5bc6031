// What is said of two files, as far as it goes by what the system told of them: before they are judged, and at the end; and at the end of
// a merging. The functions that ask the system are those of `filed` and `gather`.
#![tactic(auto)]

ghost use Rattle.std.specs.Prelude.{◌≡◌};
ghost use Rattle.decided.specs.Decided.{ready_of, storing, end_of, after_merging};

use paper::{Answer, Fault, Joined, Merged, Unmerged};
use report::{Replied, Said};

// "cannot read" for either file before all else that is asked of them, and 2 for a table of another length.
#[tactic(auto, unfolding(crate::specs::Decided::ready_of))]
pub fn ready(read: bool, got: bool, fits: bool) -> Result<(), Said>
    ensures { result ≡ ready_of read got fits }
{
    if !(read && got) {
        return Err(Said::CannotRead);
    }
    if !fits {
        return Err(Said::Answered(answer::refused_nowhere(Fault::WrongLength)));
    }
    Ok(())
}

// Only an accepted trace that is wanted goes to its file.
#[tactic(auto, unfolding(crate::specs::Decided::storing))]
pub fn to_store(wanted: bool, answer: Answer) -> bool
    ensures { result ≡ storing wanted answer }
{
    wanted && answer.number == 0
}

// The report, or that what was to be stored could not be.
#[tactic(auto, unfolding(crate::specs::Decided::end_of))]
pub fn ended(storing: bool, answer: Answer, stored: bool) -> Said
    ensures { result ≡ end_of storing answer stored }
{
    if storing && !stored {
        return Said::CannotWrite;
    }
    Said::Answered(answer)
}

// What two traces came to as one, or that it could not be stored. A refusal is told in its numbers, which `merged` has.
#[tactic(auto, unfolding(crate::specs::Decided::after_merging))]
pub fn after_merging(joint: Result<Joined, Unmerged>, merged: Merged, stored: bool) -> Replied
    ensures { result ≡ after_merging joint merged stored }
{
    match joint {
        Err(_) => Replied::Refused(merged),
        Ok(joined) => {
            if stored {
                Replied::Merged(joined)
            } else {
                Replied::CannotWrite
            }
        }
    }
}
