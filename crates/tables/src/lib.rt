// The program `latencies TEXT TABLE`, which makes a table of latencies from a text. What it says is a function of the number of its
// arguments, of what the text's file holds and of whether TABLE could be written (specs/Program.antt); the functions here ask the
// system for these and print what is said. TABLE is touched only where the table is whole.
#![tactic(auto)]

mod made;
mod print;

ghost use Rattle.std.specs.Prelude.{length, ◌≡◌};
ghost use Rattle.tables.specs.Program.{on_file, told_of, ByFile};

use files::Disk;
use report::Told;
use std::rt::Env;

// The whole program. An argument that is missing or longer than any name is handed on as an empty one, which is no file's name.
pub fn run<R: Disk + Env>(rt: &R) {
    let mut text = io::buffer();
    let mut table = io::buffer();
    let t = invocation::argument(rt, 1, &mut text);
    let l = invocation::argument(rt, 2, &mut table);
    perform(rt, invocation::count(rt), &text[..t], &table[..l]);
}

// What the program does with its arguments. Their count has the program's own name in it.
pub fn perform<R: Disk>(rt: &R, count: usize, text: &[u8], table: &[u8]) {
    print::tell(performed(rt, count, text, table));
}

// All but the printing.
fn performed<R: Disk>(rt: &R, count: usize, text: &[u8], table: &[u8]) -> Told
    ensures { ByFile (told_of count) result }
{
    if 3 < count {
        return Told::TooMany;
    }
    if count < 2 {
        return Told::CannotRead;
    }
    read_text(rt, text, table)
}

// Of a text that is too long one byte too many is read, which tells.
fn text_buffer() -> [u8; 262145]
    ensures { length result ≡ 262145 }
{
    [0; 262145]
}

fn read_text<R: Disk>(rt: &R, text: &[u8], table: &[u8]) -> Told
    ensures { ByFile on_file result }
{
    let mut bytes = text_buffer();
    let read = files::load(rt, text, &mut bytes);
    made::of_text(rt, files::held(read, &bytes), table)
}
