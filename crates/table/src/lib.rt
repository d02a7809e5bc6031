// The latencies that the bytes of a table file hold, and back: document 01, "four for each latency, low byte first".
#![tactic(auto)]

mod write;

ghost use Rattle.std.specs.Prelude.{◌≡◌, ◌+◌, ◌*◌, ◌<◌, length};
ghost use Rattle.table.specs.Table.{latencies_of, latency_at, Decoded};

pub use write::encode;

// Fills `latencies` and answers true where the file has four bytes for each of them; else it touches nothing and answers false.
pub fn decode(bytes: &[u8], latencies: &mut [u32]) -> bool
    ensures { Decoded bytes.now latencies.old result latencies.new }
{
    if bytes.len() != 4 * latencies.len() {
        return false;
    }
    fill(bytes, latencies);
    true
}

fn fill(bytes: &[u8], latencies: &mut [u32])
    requires { length bytes.now ≡ 4 * length latencies.old }
    ensures { latencies.new ≡ latencies_of bytes.now }
{
    for (i, entry) in latencies.iter_mut().enumerate() {
        *entry = latency(bytes, 4 * i);
    }
}

fn latency(bytes: &[u8], at: usize) -> u32
    requires { at + 3 < length bytes.now }
    ensures { result ≡ latency_at bytes.now at }
{
    u32::from_le_bytes([bytes[at], bytes[at + 1], bytes[at + 2], bytes[at + 3]])
}
