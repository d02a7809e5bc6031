// What the arguments ask for, as words: document 01, "A first argument other than 1 or 2, or none, is refusal 1; after that a file that
// can't be read, or isn't named, gives the single line "cannot read"".
#![tactic(auto)]

ghost use Rattle.std.specs.Prelude.{◌≡◌};
ghost use Rattle.arguments.specs.Arguments.{choice_named, plan_of, choice_and_share, choice_alone};

use paper::Asked;

// Why nothing is judged.
#[derive(Clone, Copy)]
pub enum Misuse {
    BadChoice,
    TooMany,
    Unnamed,
}

// The first argument compared as bytes: "1" or "2", and no other is a choice.
#[tactic(auto, using(crate::proofs::Planning::naming))]
fn choice_of(word: &[u8]) -> Option<u32>
    ensures { result ≡ choice_named word.now }
{
    match word {
        b"1" => Some(1),
        b"2" => Some(2),
        _ => None,
    }
}

// The count has the program's own name in it.
#[tactic(auto, unfolding(crate::specs::Arguments::plan_of, crate::specs::Arguments::on_choice))]
pub fn planned(count: usize, first: &[u8]) -> Result<(u32, bool), Misuse>
    ensures { result ≡ plan_of count first.now }
{
    let choice = choice_of(first).ok_or(Misuse::BadChoice)?;
    if 5 < count {
        return Err(Misuse::TooMany);
    }
    if count < 4 {
        return Err(Misuse::Unnamed);
    }
    Ok((choice, 4 < count))
}

// What is named by a program without named arguments: a choice and a share, and nothing else is asked for.
#[tactic(auto, unfolding(crate::specs::Arguments::choice_and_share))]
pub fn choice_and_share(choice: u32, share: u32) -> Asked
    ensures { result ≡ choice_and_share choice share }
{
    Asked {
        choice,
        levels: 0,
        picl: 0,
        user: 0,
        trace: 0,
        statistics: 0,
        share,
    }
}

// By those of them that name no share either.
#[tactic(auto, unfolding(crate::specs::Arguments::choice_alone))]
pub fn choice_alone(choice: u32) -> Asked
    ensures { result ≡ choice_alone choice }
{
    choice_and_share(choice, 0)
}
