// A table's bytes put into a lent room: document 01, "four for each latency, low byte first".
ghost use Rattle.std.specs.Prelude.{◌≡◌, [], ◌+◌, ◌*◌, ◌<◌, length};
ghost use Rattle.std.proofs.lemmas.List.Edits.{sets};
ghost use Rattle.table.specs.Table.{four_bytes, bytes_for, Encoded};

// Fills `bytes` and answers true where it has four for each latency; else it touches nothing and answers false.
pub fn encode(latencies: &[u32], bytes: &mut [u8]) -> bool
    ensures { Encoded latencies.now bytes.old result bytes.new }
{
    if bytes.len() != 4 * latencies.len() {
        return false;
    }
    spread(latencies, bytes);
    true
}

fn spread(latencies: &[u32], bytes: &mut [u8])
    requires { length bytes.old ≡ 4 * length latencies.now }
    ensures { bytes.new ≡ bytes_for latencies.now }
{
    for (i, latency) in latencies.iter().enumerate() {
        put_four(bytes, 4 * i, *latency);
    }
}

fn put_four(bytes: &mut [u8], at: usize, n: u32)
    requires { at + 3 < length bytes.old }
    ensures { bytes.new ≡ sets bytes.old at (four_bytes n []) }
{
    let four = n.to_le_bytes();
    bytes[at..at + 4].copy_from_slice(&four);
}
