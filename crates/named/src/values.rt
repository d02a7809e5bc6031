// The form of a value.
ghost use Rattle.std.specs.Prelude.{◌≡◌};
ghost use Rattle.named.specs.Values.{forgotten, choice_of, good_for};

use crate::{Name, levels, share, switch};

// A value that begins with `--` is the next name.
#[tactic(auto, using(crate::proofs::Forms::begins))]
pub fn is_forgotten(value: &[u8]) -> bool
    ensures { result ≡ forgotten value.now }
{
    value.starts_with(b"--")
}

// The number that the C interface has for it, and 0, which is no choice there, for what is neither.
#[tactic(auto, unfolding(crate::specs::Values::choice_of, paper::specs::Text::bytes_of))]
pub fn choice_of(value: &[u8]) -> u32
    ensures { result ≡ choice_of value.now }
{
    if texts::is_same(value, b"strict") {
        1
    } else if texts::is_same(value, b"lenient") {
        2
    } else {
        0
    }
}

#[tactic(auto, unfolding(crate::specs::Values::good_for))]
pub fn is_good(name: Name, value: &[u8]) -> bool
    ensures { result ≡ good_for name value.now }
{
    match name {
        Name::Choice => choice_of(value) != 0,
        Name::Levels => levels::levels_of(value).is_some(),
        Name::Statistics => switch::switch_of(value) != 2,
        Name::Share => share::share_of(value) != 1002,
        Name::Trace | Name::Table | Name::Out => !value.is_empty(),
    }
}
