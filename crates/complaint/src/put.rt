// The line of a complaint, put into a room.
ghost use Rattle.std.specs.Prelude.{◌≡◌, ◌+◌, ◌≤◌, length};
ghost use Rattle.report.specs.Put.{Put};
ghost use Rattle.named.specs.Parts.{cut};
ghost use Rattle.complaint.specs.Complaint.{visible, all_visible, word_shown, line_of};
ghost use Rattle.complaint.specs.Parts.{ShownPart, place_of};

use named::{Name, Span};

fn put_word(room: &mut [u8], at: usize, word: &[u8]) -> usize
    requires { at + length word.now ≤ length room.old }
    ensures { Put room.old at word.now result room.new }
{
    let n = octets::copy(word, &mut room[at..]);
    at + n
}

// A blank, a line feed and whatever else is no plain sign is shown as `?`.
#[tactic(auto, unfolding(crate::specs::Complaint::visible))]
fn visible_byte(b: u8) -> u8
    ensures { result ≡ visible b }
{
    match b {
        b'!'..=b'~' => b,
        _ => b'?',
    }
}

fn put_visible(room: &mut [u8], at: usize, word: &[u8]) -> usize
    requires { at + length word.now ≤ length room.old }
    ensures { Put room.old at (all_visible word.now) result room.new }
{
    for (i, b) in word.iter().enumerate() {
        room[at + i] = visible_byte(*b);
    }
    at + word.len()
}

// As much of a span as the line has and as is shown: a caller may hand in any span.
fn shown_part(line: &[u8], span: Span) -> Span
    ensures { ShownPart line.now span result }
{
    let from = span.from;
    let end = span.to.min(line.len());
    if end <= from {
        return Span { from: end, to: end };
    }
    let n = (end - from).min(200);
    Span { from, to: from + n }
}

// A line: its head, a part of another line made visible, and the line's end.
pub(crate) fn put_line(room: &mut [u8], head: &[u8], line: &[u8], span: Span) -> usize
    requires { length head.now + 201 ≤ length room.old }
    ensures { Put room.old 0 (line_of head.now (word_shown (cut line.now span))) result room.new }
{
    let part = shown_part(line, span);
    let a = put_word(room, 0, head);
    let b = put_visible(room, a, &line[part.from..part.to]);
    room[b] = b'\n';
    b + 1
}

// Where a name stands among all of them, written one behind the other.
#[tactic(auto, unfolding(crate::specs::Parts::place_of))]
pub(crate) fn place_of(name: Name) -> Span
    ensures { result ≡ place_of name }
{
    match name {
        Name::Choice => Span { from: 0, to: 8 },
        Name::Trace => Span { from: 8, to: 15 },
        Name::Table => Span { from: 15, to: 22 },
        Name::Levels => Span { from: 22, to: 30 },
        Name::Statistics => Span { from: 30, to: 42 },
        Name::Share => Span { from: 42, to: 49 },
        Name::Out => Span { from: 49, to: 54 },
    }
}
