// "The six fields left to right".
ghost use Rattle.std.specs.Prelude.{◌≡◌};
ghost use Rattle.paper.specs.Line.{bad, six_of, place_of};
ghost use Rattle.field.specs.Cursor.{rest_at, Tells};
ghost use Rattle.fields.specs.Cursor.{begun_of, begun_next, bad_field};

use field::Form;
use paper::{Fault, Head};

// Processor, process and number of data fields, behind the three fields that were read.
fn place(
    l: &[u8],
    at: usize,
    kind: i64,
    event: i64,
    time: i64,
) -> Result<(Head, usize), (Fault, usize)>
    ensures { Tells l.now (begun_of l.now result) (place_of kind event time (rest_at l.now at)) (begun_next result) }
{
    let Some((processor, p4)) = field::value_at(l, at, Form::Whole) else {
        return Err((Fault::Form, 3));
    };
    let Some((process, p5)) = field::value_at(l, p4, Form::Whole) else {
        return Err((Fault::Form, 4));
    };
    let Some((count, p6)) = field::count_at(l, p5) else {
        return Err((Fault::Form, 5));
    };
    Ok((
        Head {
            kind,
            event,
            time,
            processor,
            process,
            count,
        },
        p6,
    ))
}

// All six, of which some may be missing.
pub(crate) fn six(l: &[u8]) -> Result<(Head, usize), (Fault, usize)>
    ensures { Tells l.now (begun_of l.now result) (six_of (Some l.now)) (begun_next result) }
{
    let Some((kind, p1)) = field::value_at(l, 0, Form::Whole) else {
        return Err((Fault::Form, 0));
    };
    let Some((event, p2)) = field::value_at(l, p1, Form::Whole) else {
        return Err((Fault::Form, 1));
    };
    let Some((time, p3)) = field::value_at(l, p2, Form::Time) else {
        return Err((Fault::Stamp, 2));
    };
    place(l, p3, kind, event, time)
}

// "fewer than six fields (5)" comes before every bad field: only where one is bad are the fields counted.
pub(crate) fn bad_field(l: &[u8], fault: Fault, k: usize) -> (Fault, usize)
    ensures { bad result.0 result.1 ≡ bad_field l.now fault k }
{
    match begins::begin_of(l, 5) {
        Some(_) => (fault, k),
        None => (Fault::Form, 5),
    }
}
