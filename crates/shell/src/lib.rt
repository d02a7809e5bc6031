// The program `cantuvesh CHOICE TRACE TABLE [OUT]`, as document 01 has it under "What the base covers". What it says is a function of
// its arguments, of what its files hold and of whether OUT could be written (specs/Program.antt); the functions here ask the system for
// its arguments and print what is said.
#![tactic(auto)]

ghost use Rattle.files.specs.Told.{ByFiles};
ghost use Rattle.shell.specs.Program.{said_of};

use arguments::Misuse;
use files::Disk;
use paper::Fault;
use report::Said;
use std::rt::Env;

// The whole program. An argument that is missing or longer than any name is handed on as an empty one, which is no choice and no
// file's name.
pub fn run<R: Disk + Env>(rt: &R) {
    let mut choice = [0u8; 1];
    let mut trace = io::buffer();
    let mut table = io::buffer();
    let mut out = io::buffer();
    let c = invocation::argument(rt, 1, &mut choice);
    let t = invocation::argument(rt, 2, &mut trace);
    let l = invocation::argument(rt, 3, &mut table);
    let o = invocation::argument(rt, 4, &mut out);
    perform(
        rt,
        invocation::count(rt),
        &choice[..c],
        &trace[..t],
        &table[..l],
        &out[..o],
    );
}

// What the program does with its arguments. Their count has the program's own name in it.
pub fn perform<R: Disk>(
    rt: &R,
    count: usize,
    choice: &[u8],
    trace: &[u8],
    table: &[u8],
    out: &[u8],
) {
    let said = performed(rt, count, choice, trace, table, out);
    filed::say(said);
}

// All but the printing.
fn performed<R: Disk>(
    rt: &R,
    count: usize,
    choice: &[u8],
    trace: &[u8],
    table: &[u8],
    out: &[u8],
) -> Said
    ensures { ByFiles (said_of count choice.now) result }
{
    match arguments::planned(count, choice) {
        Err(Misuse::BadChoice) => Said::Answered(answer::refused_nowhere(Fault::BadChoice)),
        Err(Misuse::TooMany) => Said::TooMany,
        Err(Misuse::Unnamed) => Said::CannotRead,
        Ok((choice, wanted)) => {
            filed::judge_files(
                rt,
                arguments::choice_alone(choice),
                wanted,
                trace,
                table,
                out,
            )
        }
    }
}
