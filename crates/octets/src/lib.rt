// Bytes by their places: where one stands first, and a run of them copied.
#![tactic(auto)]

ghost use Rattle.std.specs.Prelude.{◌≡◌, ◌+◌, ◌++◌, ◌≤◌, min, length, take, drop};
ghost use Rattle.octets.specs.Octets.{index_of};

// The place of the first `byte` from `at` on: the end of the bytes where there is none, and `at` where that is past the end.
pub fn find(bytes: &[u8], at: usize, byte: u8) -> usize
    ensures place { result ≡ at + index_of byte (drop at bytes.now) }
    ensures within { at ≤ length bytes.now → result ≤ length bytes.now }
{
    for i in at..bytes.len() {
        if bytes[i] == byte {
            return i;
        }
    }
    at.max(bytes.len())
}

// Copies as many bytes as fit to the start of `to`, and says how many they are.
pub fn copy(from: &[u8], to: &mut [u8]) -> usize
    ensures count { result ≡ min (length from.now) (length to.old) }
    ensures bytes { to.new ≡ take result from.now ++ drop result to.old }
{
    let n = from.len().min(to.len());
    to[..n].copy_from_slice(&from[..n]);
    n
}
