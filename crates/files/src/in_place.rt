// A text written over the bytes of a file that may not be replaced, so that half of it is never taken for the whole.
//
// The first four bytes are written last. Until then '?' stands in their places, with which no record begins and which as a latency is too
// high, and where the file is longer than the text another one stands behind the text until the rest is cut off. The cut is the last thing
// done: up to it all that was written over is kept aside, and put back where something fails.
ghost use Rattle.std.specs.Prelude.{◌≤◌};

use crate::read::load_open;
use crate::system::Disk;
use crate::{say, system};
use std::fs::File;
use std::io::{Error, ErrorKind, Result, Seek, SeekFrom, Write};
use std::os::unix::fs::FileExt;

// No file is longer; a device may answer anything where it is asked for its end.
const LONGEST: u64 = 0x7fff_ffff_ffff_ffff;

pub fn store<R: Disk>(rt: &R, name: &[u8], text: &[u8]) -> Result<()> {
    let mut file = system::open_update(rt, name)?;
    put_over(rt, name, &mut file, text)
}

// Nothing is begun that would meet the limit on its way, or on its way back.
fn put_over<R: Disk>(rt: &R, name: &[u8], file: &mut File, text: &[u8]) -> Result<()> {
    let size = file.seek(SeekFrom::End(0))?;
    if LONGEST < size {
        return Err(Error::from(ErrorKind::FileTooLarge));
    }
    go_to(file, 0)?;
    let reach = reach_of(size, text.len());
    if 65537 < reach || !system::allows(rt, reach) {
        return Err(Error::from(ErrorKind::FileTooLarge));
    }
    exchange(name, file, text, size, reach)
}

fn go_to(file: &mut File, at: u64) -> Result<()> {
    if file.seek(SeekFrom::Start(at))? != at {
        return Err(Error::from(ErrorKind::NotSeekable));
    }
    Ok(())
}

// How many bytes are written over: the text's, and where the file is longer one behind them.
fn reach_of(size: u64, length: usize) -> usize {
    if length <= 65536 && (length as u64) < size {
        length + 1
    } else {
        length
    }
}

// Nothing is to be put back before the whole of the head is marked, nor where a file is only emptied.
fn exchange(name: &[u8], file: &mut File, text: &[u8], size: u64, reach: usize) -> Result<()> {
    let mut held = [0u8; 65537];
    let n = load_open(file, &mut held).map_err(|_| Error::from(ErrorKind::Other))?;
    if text.is_empty() {
        return file.set_len(0);
    }
    put_at(file, first(b"????", head_of(text.len())), 0)?;
    let put = put_marked(file, text, size);
    if put.is_err() {
        put_back(name, file, first(&held[..n], reach), size);
    }
    put
}

fn first(bytes: &[u8], most: usize) -> &[u8] {
    &bytes[..most.min(bytes.len())]
}

// How many bytes are written last: of a text that is shorter, all.
fn head_of(n: usize) -> usize
    ensures { result ≤ n }
{
    n.min(4)
}

// The text behind its marked head, and then the head. All but the head is on the disk before that, and that before anything is cut off.
fn put_marked(file: &mut File, text: &[u8], size: u64) -> Result<()> {
    let head = head_of(text.len());
    put_at(file, &text[head..], head as u64)?;
    mark_behind(file, text.len() as u64, size)?;
    file.sync_all()?;
    put_at(file, &text[..head], 0)?;
    file.sync_all()?;
    cut(file, text.len() as u64, size)
}

fn mark_behind(file: &mut File, length: u64, size: u64) -> Result<()> {
    if length < size {
        put_at(file, b"?", length)
    } else {
        Ok(())
    }
}

fn cut(file: &File, length: u64, size: u64) -> Result<()> {
    if length < size {
        file.set_len(length)
    } else {
        Ok(())
    }
}

// Bytes at a place, by a second way where the first fails.
fn put_at(file: &mut File, bytes: &[u8], at: u64) -> Result<()> {
    if matches!(file.write_at(bytes, at), Ok(n) if n == bytes.len()) {
        return Ok(());
    }
    go_to(file, at)?;
    file.write_all(bytes)
}

// What was written over, tried twice. Once it stands there the file is as it was, whether or not the disk says that it has it.
fn put_back(name: &[u8], file: &mut File, old: &[u8], size: u64) {
    if restore(file, old, size).is_err() && restore(file, old, size).is_err() {
        say::not_put_back(name);
    } else if file.sync_all().is_err() {
        say::not_synced(name);
    }
}

// The head last here too, and only where the rest is as it was. A file can have grown only where all of it was written over.
fn restore(file: &mut File, old: &[u8], size: u64) -> Result<()> {
    if old.len() as u64 == size {
        file.set_len(size)?;
    }
    if old.is_empty() {
        return Ok(());
    }
    let head = head_of(old.len());
    put_at(file, &old[head..], head as u64)?;
    put_at(file, &old[..head], 0)
}
