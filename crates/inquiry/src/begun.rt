// What the arguments ask for, before any file is looked at.
ghost use Rattle.std.specs.Prelude.{◌≡◌};
ghost use Rattle.inquiry.specs.Arguments.{too_many, without_share, share_in, start_of};

use arguments::Misuse;
use paper::{Asked, Fault};
use report::Said;
use showing::Shows;

// A fourth argument is the line of `why`; `messages` has none.
fn too_many(shows: Shows, more: bool) -> bool
    ensures { result ≡ too_many shows more }
{
    match shows {
        Shows::Messages => more,
        Shows::Reasons => false,
    }
}

// A fifth is its share.
fn without_share(shows: Shows, count: usize) -> usize
    ensures { result ≡ without_share shows count }
{
    match shows {
        Shows::Messages => count,
        Shows::Reasons => {
            if count == 6 {
                return 5;
            }
            count
        }
    }
}

fn share_in(count: usize, word: &[u8]) -> u32
    ensures { result ≡ share_in count word.now }
{
    if 5 < count {
        return named::share_of(word);
    }
    0
}

pub(crate) fn begun(shows: Shows, count: usize, choice: &[u8], share: &[u8]) -> Result<Asked, Said>
    ensures { result ≡ start_of shows count choice.now share.now }
{
    let but_share = without_share(shows, count);
    match arguments::planned(but_share, choice) {
        Err(Misuse::BadChoice) => { Err(Said::Answered(answer::refused_nowhere(Fault::BadChoice))) }
        Err(Misuse::TooMany) => Err(Said::TooMany),
        Err(Misuse::Unnamed) => Err(Said::CannotRead),
        Ok((choice, more)) => {
            if too_many(shows, more) {
                return Err(Said::TooMany);
            }
            let kept = share_in(count, share);
            Ok(arguments::choice_and_share(choice, kept))
        }
    }
}
