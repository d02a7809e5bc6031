// The arguments that a program was called with.
#![tactic(auto)]

ghost use Rattle.io.specs.Counts.{IsPrefixLen};

use std::env::FillError;
use std::rt::Env;

// An argument at the start of a buffer; its length, or 0 where it is missing or longer than the buffer. Argument 0 is the program's own
// name.
pub fn argument<R: Env>(rt: &R, k: usize, buffer: &mut [u8]) -> usize
    ensures { IsPrefixLen result buffer.new }
{
    match rt.arg(k, buffer) {
        Ok(n) => n,
        Err(_) => 0,
    }
}

// How many arguments there are, with the program's own name in the count.
pub fn count<R: Env>(rt: &R) -> usize {
    for k in 0..usize::MAX {
        if !is_given(rt, k) {
            return k;
        }
    }
    usize::MAX
}

// One that is longer than a byte is there too.
fn is_given<R: Env>(rt: &R, k: usize) -> bool {
    let mut byte = [0u8; 1];
    !matches!(rt.arg(k, &mut byte), Err(FillError::NotPresent))
}
