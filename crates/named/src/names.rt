// The seven names.
ghost use Rattle.std.specs.Prelude.{◌≡◌};
ghost use Rattle.named.specs.Values.{name_of};

use crate::Name;

#[tactic(auto, unfolding(crate::specs::Values::name_of, crate::specs::Values::written, paper::specs::Text::bytes_of))]
pub fn name_of(word: &[u8]) -> Option<Name>
    ensures { result ≡ name_of word.now }
{
    if texts::is_same(word, b"--choice") {
        return Some(Name::Choice);
    }
    if texts::is_same(word, b"--trace") {
        return Some(Name::Trace);
    }
    if texts::is_same(word, b"--table") {
        return Some(Name::Table);
    }
    if texts::is_same(word, b"--levels") {
        return Some(Name::Levels);
    }
    if texts::is_same(word, b"--statistics") {
        return Some(Name::Statistics);
    }
    if texts::is_same(word, b"--share") {
        return Some(Name::Share);
    }
    if texts::is_same(word, b"--out") {
        return Some(Name::Out);
    }
    None
}
