// One field of a line, read at a cursor. A line is given without its LF. A cursor is the place where a field starts; one past the end
// of the line stands for no field.
#![tactic(auto)]

ghost use Rattle.std.specs.Prelude.{◌≡◌};
ghost use Rattle.paper.specs.Forms.{text_of};
ghost use Rattle.paper.specs.Line.{first_of, count_of};
ghost use Rattle.field.specs.Cursor.{rest_at, got_of, got_next, counted_of, counted_next, Tells, read_as};

// The form that a field is read in.
#[derive(Clone, Copy)]
pub enum Form {
    Whole,
    Time,
    TimesQuoted,
    NumbersQuoted,
}

// A field that is this text and no other.
fn read_text(s: &[u8], text: &[u8]) -> Option<i64>
    ensures { result ≡ text_of text.now s.now }
{
    texts::is_same(s, text).then_some(0)
}

fn read_as(form: Form, s: &[u8]) -> Option<i64>
    ensures { result ≡ read_as form s.now }
{
    match form {
        Form::Whole => form::read_whole(s),
        Form::Time => form::read_time(s),
        Form::TimesQuoted => read_text(s, b"\"%d%lf\""),
        Form::NumbersQuoted => read_text(s, b"\"%d%d\""),
    }
}

// The field that starts at the cursor.
pub fn value_at(l: &[u8], at: usize, form: Form) -> Option<(i64, usize)>
    ensures { Tells l.now (got_of l.now result) (first_of (read_as form) (rest_at l.now at)) (got_next result) }
{
    if l.len() < at {
        return None;
    }
    let end = octets::find(l, at, b' ');
    let v = read_as(form, &l[at..end])?;
    Some((v, end + 1))
}

// "Number of data fields: 0 to 999"
pub fn count_at(l: &[u8], at: usize) -> Option<(usize, usize)>
    ensures { Tells l.now (counted_of l.now result) (first_of count_of (rest_at l.now at)) (counted_next result) }
{
    let (v, next) = value_at(l, at, Form::Whole)?;
    let n = signed::up_to(v, 999)?;
    Some((n, next))
}
