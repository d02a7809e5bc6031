// The levels: `off`, or three numbers in the order of a mark's data.
ghost use Rattle.std.specs.Prelude.{◌≡◌};
ghost use Rattle.named.specs.Values.{three_of, levels_of};

use crate::words;

#[derive(Clone, Copy)]
pub enum Wanted {
    Off,
    Expected(i64, i64, i64),
}

// One comma between two; the third number goes to the end, so that nothing can stand behind it. All three are good, or nothing is.
fn three_in(value: &[u8]) -> Option<Wanted>
    ensures { result ≡ three_of value.now }
{
    let first = words::word_at(value, b',', 0);
    let second = words::word_at(value, b',', first.to + 1);
    if value.len() <= second.to {
        return None;
    }
    let picl = numeral::read_number(&value[first.from..first.to])?;
    let user = numeral::read_number(&value[second.from..second.to])?;
    let trace = numeral::read_number(&value[second.to + 1..])?;
    Some(Wanted::Expected(picl, user, trace))
}

#[tactic(auto, unfolding(crate::specs::Values::levels_of, paper::specs::Text::bytes_of))]
pub fn levels_of(value: &[u8]) -> Option<Wanted>
    ensures { result ≡ levels_of value.now }
{
    if texts::is_same(value, b"off") {
        Some(Wanted::Off)
    } else {
        three_in(value)
    }
}
