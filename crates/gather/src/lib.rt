// The program `merge CHOICE FIRST SECOND OUT`, which merges the traces of two nodes. What it says is a function of its arguments, of what
// its files hold and of whether OUT could be written (specs/Program.antt); the functions here ask the system for these and print what is
// said. OUT is touched only where the two traces are merged.
#![tactic(auto)]

mod print;
mod traces;

ghost use Rattle.std.specs.Prelude.{◌≡◌};
ghost use Rattle.paper.specs.Merging.{merged_of};
ghost use Rattle.files.specs.Told.{ByFiles};
ghost use Rattle.gather.specs.Program.{bad_choice, on_files, replied_of};

use arguments::Misuse;
use files::Disk;
use paper::{Fault, Merged, Unmerged, Which};
use report::Replied;
use std::rt::Env;

// The whole program. An argument that is missing or longer than any name is handed on as an empty one, which is no choice and no
// file's name.
pub fn run<R: Disk + Env>(rt: &R) {
    let mut choice = [0u8; 1];
    let mut first = io::buffer();
    let mut second = io::buffer();
    let mut out = io::buffer();
    let c = invocation::argument(rt, 1, &mut choice);
    let f = invocation::argument(rt, 2, &mut first);
    let s = invocation::argument(rt, 3, &mut second);
    let o = invocation::argument(rt, 4, &mut out);
    perform(
        rt,
        invocation::count(rt),
        &choice[..c],
        &first[..f],
        &second[..s],
        &out[..o],
    );
}

// What the program does with its arguments. Their count has the program's own name in it.
pub fn perform<R: Disk>(
    rt: &R,
    count: usize,
    choice: &[u8],
    first: &[u8],
    second: &[u8],
    out: &[u8],
) {
    let replied = performed(rt, count, choice, first, second, out);
    print::reply(replied);
}

// All but the printing. Where OUT is not named, its name is the empty one, and that is found out when it is to be written.
fn performed<R: Disk>(
    rt: &R,
    count: usize,
    choice: &[u8],
    first: &[u8],
    second: &[u8],
    out: &[u8],
) -> Replied
    ensures { ByFiles (replied_of count choice.now) result }
{
    match arguments::planned(count, choice) {
        Err(Misuse::BadChoice) => Replied::Refused(bad_choice()),
        Err(Misuse::TooMany) => Replied::TooMany,
        Err(Misuse::Unnamed) => Replied::CannotRead,
        Ok((choice, _)) => merge_files(rt, choice, first, second, out),
    }
}

fn bad_choice() -> Merged
    ensures { result ≡ merged_of bad_choice }
{
    merging::told(Err(Unmerged {
        fault: Fault::BadChoice,
        which: Which::Neither,
        site: answer::nowhere(),
    }))
}

// The files by their names: the second is not waited for where the first can't be read.
fn merge_files<R: Disk>(rt: &R, choice: u32, first: &[u8], second: &[u8], out: &[u8]) -> Replied
    ensures { ByFiles (on_files choice) result }
{
    let mut one = files::trace_buffer();
    let mut other = files::trace_buffer();
    let a = files::load(rt, first, &mut one);
    let b = files::load_behind(rt, a.is_ok(), second, &mut other);
    traces::of_both(
        rt,
        choice,
        files::held(a, &one),
        files::held(b, &other),
        out,
    )
}
