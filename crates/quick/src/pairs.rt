// The pairs of a statistics record, an event type and what is told of it, to the end of its line.
ghost use Rattle.std.specs.Prelude.{◌<◌, false};
ghost use Rattle.values.specs.Few.{Few};
ghost use Rattle.quick.specs.Lines.{in_pairs, pairs_in, DataAt};

use crate::body;
use field::Form;
use paper::Data;

fn pairs(s: &[u8], at: usize, n: usize, form: Form) -> Option<(Data, usize)>
    requires { 0 < n }
    ensures { DataAt (in_pairs form n) s.now false at result }
{
    let mut p = at;
    for left in (0..n).rev() {
        let (_, second) = body::value(s, p, Form::Whole, false)?;
        let (_, next) = body::value(s, second, form, left == 0)?;
        p = next;
    }
    Some((Data::Others, p))
}

// The quoted descriptor, and the pairs behind it.
pub(crate) fn described(s: &[u8], at: usize, kind: i64, n: usize) -> Option<(Data, usize)>
    requires { Few n }
    ensures { DataAt (pairs_in kind n) s.now false at result }
{
    let (_, next) = body::value(s, at, values::quoted_form(kind), false)?;
    pairs(s, next, n, values::told_form(kind))
}
