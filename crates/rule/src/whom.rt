// What a word says: a number, or whom it names.
ghost use Rattle.std.specs.Prelude.{◌≡◌};
ghost use Rattle.paper.specs.Forms.{whole_of};
ghost use Rattle.rule.specs.Rule.{natural, is_star, who_of};

use crate::Who;

// A whole number from 0 to `most`.
pub(crate) fn number(word: &[u8], most: usize) -> Option<usize>
    ensures { result ≡ natural most (whole_of word.now) }
{
    let z = form::read_whole(word)?;
    signed::up_to(z, most)
}

#[tactic(auto, using(crate::proofs::Threes::stars))]
fn is_star(word: &[u8]) -> bool
    ensures { result ≡ is_star word.now }
{
    matches!(word, b"*")
}

// "`*` for every processor", or a processor from 0 to 63.
#[tactic(auto, unfolding(crate::specs::Rule::who_of, crate::specs::Rule::one))]
pub(crate) fn who_is(word: &[u8]) -> Option<Who>
    ensures { result ≡ who_of word.now }
{
    if is_star(word) {
        return Some(Who::Every);
    }
    let processor = number(word, 63)?;
    Some(Who::One(processor))
}
