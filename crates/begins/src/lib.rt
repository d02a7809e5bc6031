// Where a field of a line begins. A line is given without its LF, and its fields are counted from 0.
#![tactic(auto)]

ghost use Rattle.std.specs.Prelude.{◌≡◌};
ghost use Rattle.paper.specs.Columns.{column_of};
ghost use Rattle.begins.specs.Begins.{Begins};

pub fn begin_of(l: &[u8], k: usize) -> Option<usize>
    ensures { Begins l.now k result }
{
    let mut at = 0;
    for _ in 0..k {
        let end = octets::find(l, at, b' ');
        if end == l.len() {
            return None;
        }
        at = end + 1;
    }
    Some(at)
}

// The column of a field, counted from 1. "Where a field or LF is missing, the column is one past the line's last byte".
pub fn column(l: &[u8], k: usize) -> usize
    ensures { result ≡ column_of k l.now }
{
    begin_of(l, k).unwrap_or(l.len()) + 1
}
