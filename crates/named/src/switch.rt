// The statistics' switch: `off` or `on`.
ghost use Rattle.std.specs.Prelude.{◌≡◌};
ghost use Rattle.named.specs.Values.{switch_of};

// The number that the C interface has for it, and 2 for what is neither.
#[tactic(auto, unfolding(crate::specs::Values::switch_of, paper::specs::Text::bytes_of))]
pub fn switch_of(value: &[u8]) -> u32
    ensures { result ≡ switch_of value.now }
{
    if texts::is_same(value, b"off") {
        0
    } else if texts::is_same(value, b"on") {
        1
    } else {
        2
    }
}
