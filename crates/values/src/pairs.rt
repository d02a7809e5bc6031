// The pairs of a statistics record, an event type and what is told of it, from the cursor to the end of its line. Field 6 is the descriptor,
// 7 the first event type and 8 what is told of it.
ghost use Rattle.std.specs.Prelude.{◌≡◌, ◌≤◌};
ghost use Rattle.paper.specs.Line.{quoted_for, told_for, pairs_of, pairs_for, as_pairs};
ghost use Rattle.field.specs.Cursor.{rest_at, read_as};
ghost use Rattle.values.specs.Few.{Few};

use field::Form;
use paper::Data;

// "The descriptor is the quoted text "%d%lf" for times, or "%d%d" for the other two"
pub fn quoted_form(kind: i64) -> Form
    ensures { read_as result ≡ quoted_for kind }
{
    if kind == -101 {
        Form::TimesQuoted
    } else {
        Form::NumbersQuoted
    }
}

// A time, or a whole number.
pub fn told_form(kind: i64) -> Form
    ensures { read_as result ≡ told_for kind }
{
    if kind == -101 {
        Form::Time
    } else {
        Form::Whole
    }
}

// n pairs and no more.
fn pairs(l: &[u8], at: usize, n: usize, form: Form) -> Result<Data, usize>
    requires { n ≤ 16 }
    ensures { result ≡ as_pairs (pairs_of (read_as form) 7 n (rest_at l.now at)) }
{
    let mut p = at;
    for i in 0..n {
        let (_, second) = field::value_at(l, p, Form::Whole).ok_or(7 + 2 * i)?;
        let (_, next) = field::value_at(l, second, form).ok_or(8 + 2 * i)?;
        p = next;
    }
    if l.len() < p {
        Ok(Data::Others)
    } else {
        Err(7 + 2 * n)
    }
}

// The descriptor, and the pairs behind it.
pub(crate) fn read(l: &[u8], at: usize, kind: i64, n: usize) -> Result<Data, usize>
    requires { Few n }
    ensures { result ≡ as_pairs (pairs_for kind n (rest_at l.now at)) }
{
    let (_, next) = field::value_at(l, at, quoted_form(kind)).ok_or(6usize)?;
    pairs(l, next, n, told_form(kind))
}
