// The six fields that every record begins with.
ghost use Rattle.std.specs.Prelude.{◌≡◌, ◌+◌, ◌≤◌, length};
ghost use Rattle.quick.specs.Lines.{stop_of, CountAt, PlaceAt, BeginsAt};

use crate::number;
use paper::Head;

// The LF behind the last field of a line, or the space behind another.
pub(crate) fn stop(last: bool) -> u8
    ensures { result ≡ stop_of last }
{
    if last { 10 } else { 32 }
}

// "Number of data fields: 0 to 999". A line that ends with it has no data, and its 0 is one byte.
fn count(s: &[u8], at: usize) -> Option<(usize, bool, usize)>
    requires { at + 11 ≤ length s.now }
    ensures { CountAt s.now at result }
{
    let ended = s[at + 1] == 10;
    let (number, next) = number::whole(s, at, stop(ended))?;
    let n = signed::up_to(number, 999)?;
    Some((n, ended, next))
}

// Processor, process and number of data fields, behind the three fields that were read.
fn place(s: &[u8], at: usize, kind: i64, event: i64, time: i64) -> Option<(Head, bool, usize)>
    requires { at + 33 ≤ length s.now }
    ensures { PlaceAt kind event time s.now at result }
{
    let (processor, p4) = number::whole(s, at, 32)?;
    let (process, p5) = number::whole(s, p4, 32)?;
    let (count, ended, next) = count(s, p5)?;
    Some((
        Head {
            kind,
            event,
            time,
            processor,
            process,
            count,
        },
        ended,
        next,
    ))
}

// "The six fields left to right"
pub(crate) fn six(s: &[u8], at: usize) -> Option<(Head, bool, usize)>
    requires { at + 73 ≤ length s.now }
    ensures { BeginsAt s.now at result }
{
    let (kind, p1) = number::whole(s, at, 32)?;
    let (event, p2) = number::whole(s, p1, 32)?;
    let (time, p3) = number::time(s, p2, 32)?;
    place(s, p3, kind, event, time)
}
