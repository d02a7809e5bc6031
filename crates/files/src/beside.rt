// A file written beside another, in the same folder, which then takes its name: whoever looks finds the old one or the new one, whole,
// and so does whoever looks after a run was killed. The one beside then stays, under a name that tells.
use crate::system::{Disk, Standing};
use crate::{say, system};
use std::fs::{File, OpenFile, Permissions};
use std::io::{Error, ErrorKind, Write};
use std::os::unix::fs::{PermissionsExt, fchown};
use std::rt::Files;

// The system's numbers of the errors that forbid: a right that is missing, and a place that something is mounted on.
const EPERM: i32 = 1;

const EACCES: i32 = 13;

const EBUSY: i32 = 16;

// What a free name is made of, and how often one is looked for.
const LETTERS: &[u8; 62] = b"abcdefghijklmnopqrstuvwxyzABCDEFGHIJKLMNOPQRSTUVWXYZ0123456789";

const TRIES: u8 = 255;

// Why a text was not stored. Forbidden: the system does not let the file be replaced, and it is as it was.
#[derive(Drop)]
pub enum Unstored {
    Failed,
    Forbidden,
}

// A right that is missing, or a mount in the way, is no failure of the disk: the file may still be written over.
impl From<Error> for Unstored {
    fn from(error: Error) -> Unstored {
        match paths::number(error) {
            EACCES | EPERM | EBUSY => Unstored::Forbidden,
            _ => Unstored::Failed,
        }
    }
}

// A file where there is none.
pub fn create<R: Disk>(rt: &R, name: &[u8], text: &[u8]) -> Result<(), Unstored> {
    let mut space = io::buffer();
    let n = paths::beside(name, &mut space).ok_or(Unstored::Failed)?;
    create_by(rt, &mut space[..n], name, text)
}

// The free name is one that `create_temp` found. The file is made anew under it, since `create_temp`'s is for its owner alone, and a new
// file's mode is the umask's to say.
fn create_by<R: Disk>(rt: &R, beside: &mut [u8], name: &[u8], text: &[u8]) -> Result<(), Unstored> {
    drop(create_temp(rt, beside)?);
    remove(rt, beside);
    let file = system::create(rt, beside, 0o666)?;
    complete(rt, file, beside, name, text)
}

// A file for one that stands there, with its owner and its mode.
pub fn replace<R: Disk>(rt: &R, name: &[u8], old: Standing, text: &[u8]) -> Result<(), Unstored> {
    let mut space = io::buffer();
    let n = paths::beside(name, &mut space).ok_or(Unstored::Forbidden)?;
    replace_by(rt, &mut space[..n], name, old, text)
}

fn replace_by<R: Disk>(
    rt: &R,
    beside: &mut [u8],
    name: &[u8],
    old: Standing,
    text: &[u8],
) -> Result<(), Unstored> {
    let file = create_temp(rt, beside)?;
    if !made_like(&file, old) {
        drop(file);
        remove(rt, beside);
        return Err(Unstored::Forbidden);
    }
    complete(rt, file, beside, name, text)
}

// A new file that its owner alone may open, under a name that was free: the last six bytes of `beside` are made letters of such a name.
fn create_temp<R: Disk>(rt: &R, beside: &mut [u8]) -> std::io::Result<File> {
    for attempt in 0..TRIES {
        make_name(rt, beside, attempt);
        match system::create(rt, beside, 0o600) {
            Err(error) if error.kind() == ErrorKind::AlreadyExists => {}
            outcome => return outcome,
        }
    }
    Err(Error::from(ErrorKind::AlreadyExists))
}

// Where the system has no random bytes, the number of the attempt stands for each.
fn make_name<R: Disk>(rt: &R, beside: &mut [u8], attempt: u8) {
    let mut bytes = [attempt; 6];
    let _ = rt.fill_bytes(&mut bytes);
    let Some(places) = beside.last_chunk_mut::<6>() else {
        return;
    };
    for (place, byte) in places.iter_mut().zip(&bytes) {
        *place = letter(*byte);
    }
}

fn letter(byte: u8) -> u8 {
    LETTERS[usize::from(byte % 62)]
}

// The owner first: a change of owner takes bits of the mode away. What was done is looked at, since a mode may be narrowed in silence.
fn made_like(file: &File, old: Standing) -> bool {
    let _ = fchown(file, Some(old.owner), Some(old.group));
    let _ = file.set_permissions(Permissions::from_mode(old.mode & 0o7777));
    let Ok(new) = system::known_of(file) else {
        return false;
    };
    new.owner == old.owner && new.group == old.group && new.mode == old.mode
}

// The file takes the name, or goes.
fn complete<R: Files>(
    rt: &R,
    file: File,
    beside: &[u8],
    name: &[u8],
    text: &[u8],
) -> Result<(), Unstored> {
    let placed = place(rt, file, beside, name, text);
    if placed.is_ok() {
        sync_folder(rt, name);
    } else {
        remove(rt, beside);
    }
    placed
}

// The text is on the disk before the name is given.
fn place<R: Files>(
    rt: &R,
    file: File,
    beside: &[u8],
    name: &[u8],
    text: &[u8],
) -> Result<(), Unstored> {
    if fill(file, text).is_err() {
        return Err(Unstored::Failed);
    }
    Ok(system::rename(rt, beside, name)?)
}

fn fill(mut file: File, text: &[u8]) -> std::io::Result<()> {
    let written = file.write_all(text);
    file.sync_all()?;
    written
}

fn remove<R: Files>(rt: &R, name: &[u8]) {
    if system::remove(rt, name).is_err() {
        say::unfinished(name);
    }
}

// The new name is in the folder, and a folder reaches the disk like a file. A folder that may not be read cannot be asked to.
fn sync_folder<R: Files>(rt: &R, name: &[u8]) {
    let n = paths::folder(name);
    if n == 0 {
        sync(rt, b".");
    } else {
        sync(rt, &name[..n]);
    }
}

fn sync<R: Files>(rt: &R, folder: &[u8]) {
    let Ok(file) = system::open_read(rt, folder) else {
        return;
    };
    if file.sync_all().is_err() {
        say::not_synced(folder);
    }
}
