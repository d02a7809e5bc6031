// The merged bytes put into a room that holds them. Each line is copied once, from its trace to its place in the room, and its timestamp is
// read when it comes to the head of its trace.
ghost use Rattle.std.specs.Prelude.{◌≡◌, ◌+◌, ◌≤◌, length};
ghost use Rattle.std.proofs.lemmas.List.Edits.{sets};
ghost use Rattle.paper.specs.Merging.{merged_bytes};
ghost use Rattle.merging.specs.Weave.{Within, Fits, chosen, Advanced, rest_put, Whole, room_after};

use heads::Head;

// The heads of both traces.
#[derive(Clone, Copy)]
struct Way {
    a: Head,
    b: Head,
}

// "The step hands back the chosen line as a part of whichever trace it came from, uncopied."
fn step<'a>(first: &'a [u8], second: &'a [u8], a: Head, b: Head) -> &'a [u8]
    requires { Within first.now a × Within second.now b }
    ensures { result.now ≡ chosen first.now second.now a b }
{
    if heads::first_goes(a, b) {
        &first[a.from..a.to]
    } else {
        &second[b.from..b.to]
    }
}

fn put(room: &mut [u8], at: usize, word: &[u8])
    requires { at + length word.now ≤ length room.old }
    ensures { room.new ≡ sets room.old at word.now }
{
    room[at..at + word.len()].copy_from_slice(word);
}

// The chosen line to its place: behind as many bytes as both traces have before their heads.
fn put_next<'a>(first: &'a [u8], second: &'a [u8], a: Head, b: Head, room: &mut [u8])
    requires { Within first.now a × Within second.now b × Fits first.now second.now room.old }
    ensures { room.new ≡ sets room.old (a.from + b.from) (chosen first.now second.now a b) }
{
    let line = step(first, second, a, b);
    put(room, a.from + b.from, line);
}

// The head of the trace that the line came from is the line after it.
fn advanced(first: &[u8], second: &[u8], a: Head, b: Head) -> Way
    ensures { Advanced first.now second.now a b result.a result.b }
{
    if heads::first_goes(a, b) {
        Way {
            a: heads::head_at(first, a.to),
            b,
        }
    } else {
        Way {
            a,
            b: heads::head_at(second, b.to),
        }
    }
}

// What is left where one trace has no line any more.
fn put_rest(first: &[u8], second: &[u8], at: usize, by: usize, room: &mut [u8])
    requires { (at ≤ length first.now) × (by ≤ length second.now) × Fits first.now second.now room.old }
    ensures { room.new ≡ rest_put first.now second.now at by room.old }
{
    put(room, at + by, &first[at..]);
    put(room, first.len() + by, &second[by..]);
}

// "at each step the line with the smaller timestamp goes next"
pub(crate) fn weave<'a>(first: &'a [u8], second: &'a [u8], room: &mut [u8])
    requires { Whole first.now × Whole second.now × Fits first.now second.now room.old }
    ensures { room.new ≡ room_after (merged_bytes first.now second.now) room.old }
{
    let mut a = heads::head_at(first, 0);
    let mut b = heads::head_at(second, 0);
    while a.from < first.len() && b.from < second.len() {
        put_next(first, second, a, b, room);
        let way = advanced(first, second, a, b);
        a = way.a;
        b = way.b;
    }
    put_rest(first, second, a.from, b.from, room);
}
