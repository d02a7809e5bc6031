// A text into the file of a name: all of it is there, or what was there before.
//
// A new file, and a plain one with one name, is written beside and then takes the name (beside.rt). A link, a file with several names
// and one whose folder may not be changed is written over (in_place.rt). A device or a pipe is written to as it stands.
use crate::beside::Unstored;
use crate::system::{Disk, Standing};
use crate::{beside, in_place, system};
use std::fs::File;
use std::io::Write;

// The system's numbers of errors.
const ENOENT: i32 = 2;

const EINVAL: i32 = 22;

// The bits of a mode that say what kind of file it is, and those of a plain one.
const KIND: u32 = 0o170000;

const PLAIN: u32 = 0o100000;

// Whether all of the text is in the file of this name.
pub fn store<R: Disk>(rt: &R, name: &[u8], text: &[u8]) -> bool {
    put(rt, name, text).is_ok()
}

// The same where it is asked for; else the file is not touched.
pub fn store_asked<R: Disk>(rt: &R, asked: bool, name: &[u8], text: &[u8]) -> bool {
    !asked || store(rt, name, text)
}

// It is opened for writing alone at first: a pipe then waits for its reader, and what may not be written is left alone.
fn put<R: Disk>(rt: &R, name: &[u8], text: &[u8]) -> Result<(), Unstored> {
    match system::open_append(rt, name) {
        Ok(file) => put_over(rt, name, file, text),
        Err(error) => put_new(rt, name, paths::number(error), text),
    }
}

// Where nothing has the name, not even a link that leads nowhere.
fn put_new<R: Disk>(rt: &R, name: &[u8], error: i32, text: &[u8]) -> Result<(), Unstored> {
    if error != ENOENT || name.is_empty() || paths::link_error(rt, name) != ENOENT {
        return Err(Unstored::Failed);
    }
    if !system::allows(rt, text.len()) {
        return Err(Unstored::Failed);
    }
    beside::create(rt, name, text)
}

// A kind that the system does not tell is left alone.
fn put_over<R: Disk>(rt: &R, name: &[u8], mut file: File, text: &[u8]) -> Result<(), Unstored> {
    let old = system::known_of(&file)?;
    match old.mode & KIND {
        PLAIN => put_file(rt, name, old, text),
        0 => Err(Unstored::Failed),
        _ => Ok(file.write_all(text)?),
    }
}

fn put_file<R: Disk>(rt: &R, name: &[u8], old: Standing, text: &[u8]) -> Result<(), Unstored> {
    if !system::allows(rt, text.len()) {
        return Err(Unstored::Failed);
    }
    match replace(rt, name, old, text) {
        Err(Unstored::Forbidden) => Ok(in_place::store(rt, name, text)?),
        outcome => outcome,
    }
}

// A link would lose where it leads, and a file with a second name would part from it.
fn replace<R: Disk>(rt: &R, name: &[u8], old: Standing, text: &[u8]) -> Result<(), Unstored> {
    if old.links != 1 || paths::link_error(rt, name) != EINVAL {
        return Err(Unstored::Forbidden);
    }
    beside::replace(rt, name, old, text)
}
