// The share of a gap that is kept, in thousandths.
ghost use Rattle.std.specs.Prelude.{◌≡◌};
ghost use Rattle.named.specs.Values.{share_of};

// Every number above 1,000 is the same one, so that the largest of them is refused as the least is and none wraps to a good share. A
// number and no Option, for what is no share too: it is the C interface's number that this one becomes.
#[tactic(auto, unfolding(crate::specs::Values::share_of, crate::specs::Values::share_by))]
pub fn share_of(value: &[u8]) -> u32
    ensures { result ≡ share_of value.now }
{
    match numeral::read_natural(value) {
        None => 1002,
        Some(share) if 1000 < share => 1001,
        Some(share) => share as u32,
    }
}
