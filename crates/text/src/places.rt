// The places of the table: all of them open at first, and the first that is open still.
ghost use Rattle.std.specs.Prelude.{◌≡◌, length, nat_lt, position};
ghost use Rattle.text.specs.Text.{first_open, on_open};
ghost use Rattle.text.specs.Held.{held, Unsaid};

use crate::Unmade;

// A number above every latency stands for none: the places are the table that is written, in fixed memory.
#[tactic(auto, using(crate::proofs::Opens::all_open))]
pub(crate) fn unsaid() -> [u32; 4096]
    ensures { Unsaid result }
{
    [u32::MAX; 4096]
}

fn open_place(latencies: &[u32]) -> Option<usize>
    ensures { result ≡ position (λ n. nat_lt 1000000 n) latencies.now }
{
    latencies.iter().position(|latency| 1_000_000 < *latency)
}

// "a pair that no line covers is an error, not a 0"
#[tactic(auto, using(crate::proofs::Opens::open_is), unfolding(crate::specs::Text::on_open))]
pub(crate) fn first_open(latencies: &[u32]) -> Result<(), Unmade>
    ensures { result ≡ on_open (first_open (held latencies.now) (length latencies.now) 0) }
{
    match open_place(latencies) {
        Some(k) => Err(Unmade::Open(k / 64, k % 64)),
        None => Ok(()),
    }
}
