// From the text's bytes to what is said of them: "cannot read", too long, no table made, or the table and its file.
ghost use Rattle.std.specs.Prelude.{◌≡◌, length, option_copied, Ok, Err};
ghost use Rattle.text.specs.Text.{made_of};
ghost use Rattle.files.specs.Told.{ByStored};
ghost use Rattle.tables.specs.Program.{unmade_told, on_made, on_file};

use files::Disk;
use report::Told;
use text::Unmade;

// The longest text.
const LONGEST: usize = 262_144;

fn no_table() -> [u8; 16384]
    ensures { length result ≡ 16384 }
{
    [0; 16384]
}

#[tactic(auto, unfolding(crate::specs::Program::unmade_told))]
fn unmade_told(unmade: Unmade) -> Told
    ensures { result ≡ unmade_told unmade }
{
    match unmade {
        Unmade::BadLine(line) => Told::BadLine(line as u64),
        Unmade::Open(sender, receiver) => Told::Uncovered(sender as u64, receiver as u64),
    }
}

// What is said of a whole table, by whether its file could be written.
#[tactic(auto, unfolding(crate::specs::Program::on_made))]
fn stored_told(stored: bool) -> Told
    ensures { result ≡ on_made (Ok tt) stored }
{
    if stored {
        Told::Written
    } else {
        Told::CannotWrite
    }
}

// Where the table is not whole, its file is not touched.
fn concluded<R: Disk>(rt: &R, text: &[u8], table: &[u8]) -> Told
    ensures { ByStored (on_made (made_of text.now)) result }
{
    let mut bytes = no_table();
    match text::make(text, &mut bytes) {
        Ok(()) => stored_told(files::store(rt, table, &bytes)),
        Err(unmade) => unmade_told(unmade),
    }
}

pub(crate) fn of_text<R: Disk>(rt: &R, text: Option<&[u8]>, table: &[u8]) -> Told
    ensures { ByStored (on_file (option_copied text.entry)) result }
{
    let Some(text) = text else {
        return Told::CannotRead;
    };
    if LONGEST < text.len() {
        return Told::TooLong;
    }
    concluded(rt, text, table)
}
