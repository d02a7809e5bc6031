// A listed line: "then 9, data (5), 10". Of its fields, counted from 0, the processor is 3, the process 4, the number of data 5 and the
// descriptor 6; the three data of a message are 7 to 9.
ghost use Rattle.std.specs.Prelude.{ℕ, ◌≡◌, List, Option, Ok, Err};
ghost use Rattle.paper.specs.Line as paper;
ghost use Rattle.paper.specs.Line.{placed, message_of, role_of, with_role, values_in, listed_line};
ghost use Rattle.field.specs.Cursor.{rest_at};

use paper::{Data, Fault, Head, Line, Message, Part, Record, Role};

// "Length is 0 or more; the named processor is 0 to 63."
fn three_noted(length: i64, tag: i64, peer: i64) -> Option<Message>
    ensures { result ≡ message_of (Data.Three length tag peer) }
{
    let bytes = signed::size(length)?;
    let peer = signed::up_to(peer, 63)?;
    Some(Message {
        length: bytes as u64,
        tag,
        peer,
    })
}

fn noted(values: Data) -> Option<Message>
    ensures { result ≡ message_of values }
{
    match values {
        Data::Three(length, tag, peer) => three_noted(length, tag, peer),
        Data::Others => None,
    }
}

fn role_of(part: Part, values: Data) -> Option<Role>
    ensures { result ≡ role_of part values }
{
    match part {
        Part::Neither => Some(Role::Neither),
        Part::Sends => Some(Role::Send(noted(values)?)),
        Part::Receives => Some(Role::Receive(noted(values)?)),
    }
}

// The field that a send or receive without its message lacks: "the data count's if that is wrong, else the descriptor's if it isn't 2, else
// the first bad datum's".
fn lacking(h: Head, values: Data) -> usize
    ensures { result ≡ paper.lacking h values }
{
    match values {
        Data::Three(length, _, _) => if length < 0 { 7 } else { 9 },
        Data::Others => if h.count == 3 { 6 } else { 5 },
    }
}

// "a send or receive without its three good data" is 10
fn with_role(h: Head, processor: usize, values: Data, cast: Option<Role>) -> Line
    ensures { result ≡ with_role h processor values cast }
{
    match cast {
        Some(role) => Line::Listed(Record {
            time: h.time,
            processor,
            kind: h.kind,
            event: h.event,
            values,
            role,
        }),
        None => Line::Refused(Fault::NoMessage, Some(lacking(h, values))),
    }
}

// "processor outside 0 to 63 or process not 0", or else the processor
fn place_of(processor: i64, process: i64) -> Option<usize>
    ensures { result ≡ placed processor process }
{
    if process == 0 {
        signed::up_to(processor, 63)
    } else {
        None
    }
}

// Of the two the field that is bad, left to right.
fn misplaced(h: Head) -> usize
    ensures { result ≡ paper.misplaced h }
{
    if signed::up_to(h.processor, 63).is_some() {
        4
    } else {
        3
    }
}

// "then 9, .. 10", of data that are good.
pub(crate) fn with_values(h: Head, values: Data) -> Line
    ensures { (fields : Option (List ℕ)) → Ok values ≡ values_in h.kind h.count fields → result ≡ listed_line h fields }
{
    let Some(processor) = place_of(h.processor, h.process) else {
        return Line::Refused(Fault::Place, Some(misplaced(h)));
    };
    let part = parts::part_of(h.kind, h.event);
    with_role(h, processor, values, role_of(part, values))
}

// "then 9, data (5)", of data that are bad, missing or too many at a field.
fn without_values(h: Head, k: usize) -> Line
    ensures { (fields : Option (List ℕ)) → Err k ≡ values_in h.kind h.count fields → result ≡ listed_line h fields }
{
    match place_of(h.processor, h.process) {
        Some(_) => Line::Refused(Fault::Form, Some(k)),
        None => Line::Refused(Fault::Place, Some(misplaced(h))),
    }
}

pub(crate) fn listed_line(l: &[u8], h: Head, next: usize) -> Line
    ensures { result ≡ listed_line h (rest_at l.now next) }
{
    match values::read(l, next, h.kind, h.count) {
        Ok(values) => with_values(h, values),
        Err(k) => without_values(h, k),
    }
}
