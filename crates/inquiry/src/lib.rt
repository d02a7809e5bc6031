// The programs `messages CHOICE TRACE TABLE` and `why CHOICE TRACE TABLE LINE [SHARE]`, which show the messages of a trace and why a time
// moved. What they say is a function of the arguments and of what the files hold (specs/Program.antt); the functions here ask the system
// for these, put the text into one room and print it in one write.
#![tactic(auto)]

mod begun;
mod loaded;

ghost use Rattle.std.specs.Prelude.{length, ◌≡◌};
ghost use Rattle.inquiry.specs.Program.{TextInto, said_of};

use showing::Shows;
use std::rt::{Env, Files};

const STDOUT: i32 = 1;

// The whole programs. An argument that is missing or longer than any name is handed on as an empty one, which is no choice, no file's
// name, no line and no share.
pub fn show_messages<R: Files + Env>(rt: &R) {
    let mut choice = [0u8; 1];
    let mut trace = io::buffer();
    let mut table = io::buffer();
    let c = invocation::argument(rt, 1, &mut choice);
    let t = invocation::argument(rt, 2, &mut trace);
    let l = invocation::argument(rt, 3, &mut table);
    perform(
        rt,
        Shows::Messages,
        invocation::count(rt),
        &choice[..c],
        &trace[..t],
        &table[..l],
        b"",
        b"",
    );
}

pub fn show_reasons<R: Files + Env>(rt: &R) {
    let mut choice = [0u8; 1];
    let mut trace = io::buffer();
    let mut table = io::buffer();
    let mut line = io::buffer();
    let mut share = io::buffer();
    let c = invocation::argument(rt, 1, &mut choice);
    let t = invocation::argument(rt, 2, &mut trace);
    let l = invocation::argument(rt, 3, &mut table);
    let n = invocation::argument(rt, 4, &mut line);
    let s = invocation::argument(rt, 5, &mut share);
    perform(
        rt,
        Shows::Reasons,
        invocation::count(rt),
        &choice[..c],
        &trace[..t],
        &table[..l],
        &line[..n],
        &share[..s],
    );
}

// A line of 256 bytes for each record that a trace may list, and one more.
fn text_room() -> [u8; 524544]
    ensures { length result ≡ 524544 }
{
    [0; 524544]
}

// What a program does with its arguments. Their count has the program's own name in it.
pub fn perform<R: Files>(
    rt: &R,
    shows: Shows,
    count: usize,
    choice: &[u8],
    trace: &[u8],
    table: &[u8],
    line: &[u8],
    share: &[u8],
) {
    let mut room = text_room();
    let n = performed(
        rt, shows, count, choice, trace, table, line, share, &mut room,
    );
    io::write_all(STDOUT, &room[..n]);
}

// All but the printing.
fn performed<R: Files>(
    rt: &R,
    shows: Shows,
    count: usize,
    choice: &[u8],
    trace: &[u8],
    table: &[u8],
    line: &[u8],
    share: &[u8],
    room: &mut [u8; 524544],
) -> usize
    ensures { TextInto (said_of shows count choice.now line.now share.now) room.old result room.new }
{
    match begun::begun(shows, count, choice, share) {
        Err(said) => showing::say(said, room),
        Ok(asked) => loaded::of_names(rt, shows, asked, trace, table, line, room),
    }
}
