// The data of a record, to the end of its line.
ghost use Rattle.std.specs.Prelude.{◌≡◌, ℕ, ◌<◌, List, true, false, ℤ};
ghost use Rattle.paper.specs.Line as paper;
ghost use Rattle.field.specs.Cursor.{read_as};
ghost use Rattle.values.specs.Few.{Few};
ghost use Rattle.quick.specs.Lines.{ValueAt, in_form, last_of, DataAt, HoldsAt};

use crate::{head, number, pairs};
use field::Form;
use paper::Data;

// The line ends before any.
pub(crate) fn none(n: usize, at: usize) -> Option<(Data, usize)>
    ensures { (s : List ℕ) (kind : ℤ) → HoldsAt s true at kind n result }
{
    if n == 0 {
        Some((Data::Others, at))
    } else {
        None
    }
}

// A field in the form. With the byte behind it it is at most 18 bytes.
pub(crate) fn value(s: &[u8], at: usize, form: Form, last: bool) -> Option<(i64, usize)>
    ensures { ValueAt (read_as form) s.now at last result }
{
    let n = s.len();
    if n < 18 || n - 18 < at {
        return None;
    }
    number::in_form(form, s, at, head::stop(last))
}

// Three whole numbers are told from other data.
fn kept(form: Form, n: usize, a: i64, b: i64, c: i64) -> Data
    ensures { result ≡ last_of form n a b c }
{
    match form {
        Form::Whole => if n == 3 {
            Data::Three(a, b, c)
        } else {
            Data::Others
        },
        _ => Data::Others,
    }
}

// n data in the form, of which the last three are kept.
fn values(s: &[u8], at: usize, n: usize, form: Form) -> Option<(Data, usize)>
    requires { 0 < n }
    ensures { DataAt (in_form form n) s.now false at result }
{
    let mut a = 0;
    let mut b = 0;
    let mut c = 0;
    let mut p = at;
    for left in (0..n).rev() {
        let (v, next) = value(s, p, form, left == 0)?;
        a = b;
        b = c;
        c = v;
        p = next;
    }
    Some((kept(form, n, a, b, c), p))
}

// "Descriptor in a listed record: 2 (each datum a whole number) or 5 (each datum in the form of a time)."
fn described(s: &[u8], at: usize, n: usize, descriptor: i64) -> Option<(Data, usize)>
    requires { 0 < n }
    ensures { DataAt (paper.described n descriptor) s.now false at result }
{
    match descriptor {
        2 => values(s, at, n, Form::Whole),
        5 => values(s, at, n, Form::Time),
        _ => None,
    }
}

// "a descriptor and the data"
fn data(s: &[u8], at: usize, n: usize) -> Option<(Data, usize)>
    requires { Few n }
    ensures { DataAt (paper.data_of n) s.now false at result }
{
    let (descriptor, next) = value(s, at, Form::Whole, false)?;
    described(s, next, n, descriptor)
}

// "in a listed record at most 16", data or pairs
pub(crate) fn some(s: &[u8], at: usize, kind: i64, n: usize) -> Option<(Data, usize)>
    ensures { HoldsAt s.now false at kind n result }
{
    if n == 0 || 16 < n {
        return None;
    }
    if parts::is_statistics(kind) {
        pairs::described(s, at, kind, n)
    } else {
        data(s, at, n)
    }
}
