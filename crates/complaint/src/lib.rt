// What is said of named arguments of which one is bad or missing: one line, whatever the caller typed.
#![tactic(auto)]

mod put;

ghost use Rattle.std.specs.Prelude.{Err};
ghost use Rattle.complaint.specs.Complaint.{Complained};

use flags::{Lack, Wishes};

// The line that names what is bad or missing, at the room's start, and its length: 0 where nothing is.
pub fn complaint(line: &[u8], plan: Result<Wishes, Lack>, room: &mut [u8; 256]) -> usize
    ensures { Complained line.now plan room.old result room.new }
{
    match plan {
        Err(lack) => lack_named(line, lack, room),
        Ok(_) => 0,
    }
}

fn lack_named(line: &[u8], lack: Lack, room: &mut [u8; 256]) -> usize
    ensures { Complained line.now (Err lack) room.old result room.new }
{
    match lack {
        Lack::Bad(word) => put::put_line(room, b"bad argument ", line, word),
        Lack::Missing(name) => {
            // all seven names, of which one is shown
            let place = put::place_of(name);
            put::put_line(
                room,
                b"missing argument ",
                b"--choice--trace--table--levels--statistics--share--out",
                place,
            )
        }
    }
}
