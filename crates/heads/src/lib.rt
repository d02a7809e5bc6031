// The line that is next in a trace of which some is merged: where it stands, and its timestamp; and which of two goes.
#![tactic(auto)]

ghost use Rattle.std.specs.Prelude.{◌≡◌};
ghost use Rattle.std.specs.Int.Signed.{le_z};
ghost use Rattle.paper.specs.Merging.{stamp_of};
ghost use Rattle.heads.specs.Heads.{HeadAt};

use field::Form;

// The line is s[from..to], with its LF.
#[derive(Clone, Copy)]
pub struct Head {
    pub from: usize,
    pub to: usize,
    pub time: i64,
}

// The timestamp of a line that is given without its LF; every line of a good trace has one.
fn stamp(l: &[u8]) -> i64
    ensures { result ≡ stamp_of l.now }
{
    let at = stamps::third_field(l, 0);
    match field::value_at(l, at, Form::Time) {
        Some((time, _)) => time,
        None => 0,
    }
}

// The first line from a place on.
pub fn head_at(s: &[u8], at: usize) -> Head
    ensures { HeadAt s.now at result }
{
    if s.len() <= at {
        return Head {
            from: at,
            to: s.len(),
            time: 0,
        };
    }
    let end = octets::find(s, at, 10);
    let time = stamp(&s[at..end]);
    if end == s.len() {
        Head {
            from: at,
            to: end,
            time,
        }
    } else {
        Head {
            from: at,
            to: end + 1,
            time,
        }
    }
}

// Which of two lines goes next: "the line with the smaller timestamp .., the first trace's where equal".
pub fn first_goes(a: Head, b: Head) -> bool
    ensures { result ≡ le_z a.time b.time }
{
    a.time <= b.time
}
