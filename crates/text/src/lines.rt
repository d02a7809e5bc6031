// The lines of a text, read one after the other: "later lines over earlier ones".
ghost use Rattle.std.specs.Prelude.{◌≡◌, length};
ghost use Rattle.text.specs.Held.{LinesRead};

use crate::{Unmade, spans};

// The first bad line, where there is one. The last line may lack its LF: behind it stands nothing either way. The loop jumps from line
// to line.
pub(crate) fn read_lines(text: &[u8], latencies: &mut [u32]) -> Result<(), Unmade>
    requires { length latencies.old ≡ 4096 }
    ensures { LinesRead text.now latencies.old result latencies.new }
{
    let mut at = 0;
    let mut n = 1;
    while at < text.len() {
        let end = octets::find(text, at, b'\n');
        let Ok(said) = rule::read_line(&text[at..end]) else {
            return Err(Unmade::BadLine(n));
        };
        spans::put_said(said, latencies);
        at = end + 1;
        n += 1;
    }
    Ok(())
}
