// A whole file into a lent buffer.
ghost use Rattle.std.specs.Prelude.{◌≡◌, ◌≤◌, length, MatchResult, option_copied};
ghost use Rattle.io.specs.Counts.{IsPrefixLen};
ghost use Rattle.files.specs.File.{held_in};

use crate::system;
use std::io::Read;
use std::rt::Files;

// The file of this name at the start of a buffer, how many of its bytes; one that is longer than the buffer fills it. Where it can't be read,
// how many came before that.
pub fn load<R: Files>(rt: &R, name: &[u8], buffer: &mut [u8]) -> Result<usize, usize>
    ensures { MatchResult result (λ n. IsPrefixLen n buffer.new) (λ n. IsPrefixLen n buffer.new) }
{
    match system::open_read(rt, name) {
        Ok(mut file) => load_open(&mut file, buffer),
        Err(_) => Err(0),
    }
}

// The file of this name, which is not waited for where the one before it can't be read.
pub fn load_behind<R: Files>(
    rt: &R,
    read: bool,
    name: &[u8],
    buffer: &mut [u8],
) -> Result<usize, usize>
    ensures { MatchResult result (λ n. IsPrefixLen n buffer.new) (λ n. IsPrefixLen n buffer.new) }
{
    if read { load(rt, name, buffer) } else { Err(0) }
}

// What was read of a file into a buffer: its bytes, or none where it can't be read.
pub fn held(read: Result<usize, usize>, buffer: &[u8]) -> Option<&[u8]>
    ensures { option_copied result ≡ held_in read buffer.now }
{
    match read {
        Ok(n) => Some(&buffer[..n.min(buffer.len())]),
        Err(_) => None,
    }
}

// A read that fails looks like the end of the file to `read_full`, so where the buffer is not full the end is asked for. A
// directory opens, and fails here.
pub(crate) fn load_open<F: Read>(file: &mut F, buffer: &mut [u8]) -> Result<usize, usize>
    ensures { MatchResult result (λ n. IsPrefixLen n buffer.new) (λ n. IsPrefixLen n buffer.new) }
{
    let n = read_full(file, buffer);
    if n == buffer.len() || at_end(file) {
        Ok(n)
    } else {
        Err(n)
    }
}

// Reads until the buffer is full, the file ends or a read fails; how many bytes the buffer begins with then.
pub(crate) fn read_full<F: Read>(file: &mut F, buffer: &mut [u8]) -> usize
    ensures { IsPrefixLen result buffer.new }
{
    let mut done = 0;
    while done < buffer.len() {
        let n = read_some(file, &mut buffer[done..]);
        if n == 0 {
            break;
        }
        done += n;
    }
    done
}

fn read_some<F: Read>(file: &mut F, buffer: &mut [u8]) -> usize
    ensures { result ≤ length buffer.new }
{
    file.read(buffer).unwrap_or(0)
}

fn at_end<F: Read>(file: &mut F) -> bool {
    let mut byte = [0u8; 1];
    matches!(file.read(&mut byte), Ok(0))
}
