// What the system is asked for: a file by its name, what it knows of an open one, and how long it lets a file become.
use crate::limit::limit_in;
use crate::read::read_full;
use std::fs;
use std::fs::{File, OpenOptions};
use std::io::Result;
use std::os::unix::fs::{MetadataExt, OpenOptionsExt};
use std::random::RandomSource;
use std::rt::Files;

// The system's files, and random bytes for names that are free.
pub trait Disk: Files<File = File> + RandomSource {}

impl<R: Files<File = File> + RandomSource> Disk for R {}

// What is kept where a file takes the place of another, and how many names it has.
#[derive(Drop)]
pub struct Standing {
    pub mode: u32,
    pub owner: u32,
    pub group: u32,
    pub links: u64,
}

pub fn known_of(file: &File) -> Result<Standing> {
    let known = file.metadata()?;
    Ok(Standing {
        mode: known.mode(),
        owner: known.uid(),
        group: known.gid(),
        links: known.nlink(),
    })
}

// Whether the process may write a file of this length. Beyond it the system ends the process, or fails each write. Where it tells no
// limit, there is none.
pub fn allows<R: Files>(rt: &R, length: usize) -> bool {
    limit(rt).is_none_or(|most| length as u64 <= most)
}

fn limit<R: Files>(rt: &R) -> Option<u64> {
    let mut text = io::buffer();
    let mut file = open_read(rt, b"/proc/self/limits").ok()?;
    let n = read_full(&mut file, &mut text);
    limit_in(&text[..n])
}

pub fn open_read<R: Files>(rt: &R, name: &[u8]) -> Result<R::File> {
    File::open(rt, paths::text(name)?)
}

// Each write lands at the end.
pub fn open_append<R: Files>(rt: &R, name: &[u8]) -> Result<R::File> {
    OpenOptions::new().append(true).open(rt, paths::text(name)?)
}

pub fn open_update<R: Files>(rt: &R, name: &[u8]) -> Result<R::File> {
    OpenOptions::new()
        .read(true)
        .write(true)
        .open(rt, paths::text(name)?)
}

// A new file, open for writing. The system narrows the mode.
pub fn create<R: Files>(rt: &R, name: &[u8], mode: u32) -> Result<R::File> {
    OpenOptions::new()
        .write(true)
        .create_new(true)
        .mode(mode)
        .open(rt, paths::text(name)?)
}

pub fn rename<R: Files>(rt: &R, from: &[u8], to: &[u8]) -> Result<()> {
    fs::rename(rt, paths::text(from)?, paths::text(to)?)
}

pub fn remove<R: Files>(rt: &R, name: &[u8]) -> Result<()> {
    fs::remove_file(rt, paths::text(name)?)
}
