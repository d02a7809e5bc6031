// The data of a listed record, from the cursor to the end of its line: what they are, or the field that is bad, missing or too many. Field 5
// is the number of data, 6 the descriptor and 7 the first datum.
#![tactic(auto)]

mod pairs;

ghost use Rattle.std.specs.Prelude.{◌≡◌, ◌≤◌};
ghost use Rattle.paper.specs.Line.{values_of, as_wholes, as_others, data_of, described, values_in};
ghost use Rattle.field.specs.Cursor.{rest_at, read_as};
ghost use Rattle.values.specs.Few.{Few};

use field::Form;
pub use pairs::{quoted_form, told_form};
use paper::Data;

// Three whole numbers and no more.
fn three(l: &[u8], at: usize) -> Result<Data, usize>
    ensures { result ≡ as_wholes (values_of (read_as Form.Whole) 7 3 (rest_at l.now at)) }
{
    let (a, p1) = field::value_at(l, at, Form::Whole).ok_or(7usize)?;
    let (b, p2) = field::value_at(l, p1, Form::Whole).ok_or(8usize)?;
    let (c, p3) = field::value_at(l, p2, Form::Whole).ok_or(9usize)?;
    if l.len() < p3 {
        Ok(Data::Three(a, b, c))
    } else {
        Err(10)
    }
}

// Data that are only looked at for their form: n fields in it and no more.
fn others(l: &[u8], at: usize, n: usize, form: Form) -> Result<Data, usize>
    requires { n ≤ 16 }
    ensures { result ≡ as_others (values_of (read_as form) 7 n (rest_at l.now at)) }
{
    let mut p = at;
    for i in 0..n {
        let (_, next) = field::value_at(l, p, form).ok_or(7 + i)?;
        p = next;
    }
    if l.len() < p {
        Ok(Data::Others)
    } else {
        Err(7 + n)
    }
}

fn wholes(l: &[u8], at: usize, n: usize) -> Result<Data, usize>
    requires { n ≤ 16 }
    ensures { result ≡ as_wholes (values_of (read_as Form.Whole) 7 n (rest_at l.now at)) }
{
    if n == 3 {
        three(l, at)
    } else {
        others(l, at, n, Form::Whole)
    }
}

// "Descriptor in a listed record: 2 (each datum a whole number) or 5 (each datum in the form of a time)."
fn described_by(l: &[u8], at: usize, n: usize, descriptor: i64) -> Result<Data, usize>
    requires { n ≤ 16 }
    ensures { result ≡ described n descriptor (rest_at l.now at) }
{
    match descriptor {
        2 => wholes(l, at, n),
        5 => others(l, at, n, Form::Time),
        _ => Err(6),
    }
}

// "a descriptor and the data"
fn data(l: &[u8], at: usize, n: usize) -> Result<Data, usize>
    requires { Few n }
    ensures { result ≡ data_of n (rest_at l.now at) }
{
    let (descriptor, next) = field::value_at(l, at, Form::Whole).ok_or(6usize)?;
    described_by(l, next, n, descriptor)
}

// "only if that number is above zero, a descriptor and the data", "in a listed record at most 16"; of a statistics record "the data count
// counts pairs, at most 16"
pub fn read(l: &[u8], at: usize, kind: i64, n: usize) -> Result<Data, usize>
    ensures { result ≡ values_in kind n (rest_at l.now at) }
{
    if n == 0 {
        return if l.len() < at {
            Ok(Data::Others)
        } else {
            Err(6)
        };
    }
    if 16 < n {
        return Err(5);
    }
    if parts::is_statistics(kind) {
        pairs::read(l, at, kind, n)
    } else {
        data(l, at, n)
    }
}
