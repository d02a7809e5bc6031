// The program `canary --choice strict|lenient --trace FILE --table FILE --levels PICL,USER,TRACE|off --statistics on|off --share N
// [--out FILE]`, for those who run a rollout. What it says is a function of its arguments, of what its files hold and of whether OUT could
// be written (specs/Program.antt); the functions here ask the system for its arguments and print what is said.
#![tactic(auto)]

mod join;

ghost use Rattle.std.specs.Prelude.{IfSome, is_some};
ghost use Rattle.files.specs.Told.{ByFiles};
ghost use Rattle.filed.specs.Filed.{on_files};
ghost use Rattle.named.specs.Words.{words_of};
ghost use Rattle.named.specs.Parts.{Within};
ghost use Rattle.flags.specs.Plan.{plan_of};
ghost use Rattle.flags.specs.Spans.{AllWithin};
ghost use Rattle.rollout.specs.Program.{ShownBy};

use files::Disk;
use flags::Wishes;
use named::Span;
use report::Said;
use std::rt::Env;

const STDOUT: i32 = 1;

// The whole program. No argument has a zero byte in it.
pub fn run<R: Disk + Env>(rt: &R) {
    let mut line = io::large_buffer();
    let n = join::arguments(rt, &mut line);
    perform(rt, &line[..n], 0);
}

// What the program does with a line of arguments, which stand apart by the separator.
pub fn perform<R: Disk>(rt: &R, line: &[u8], separator: u8) {
    let mut text = [0u8; 256];
    let n = performed(rt, line, separator, &mut text);
    io::write_all(STDOUT, &text[..n]);
}

// All but the printing. Where an argument is bad or missing, no file is looked at.
fn performed<R: Disk>(rt: &R, line: &[u8], separator: u8, text: &mut [u8; 256]) -> usize
    ensures { ShownBy (plan_of (words_of separator line.now)) text.old result text.new }
{
    let plan = flags::planned(line, separator);
    match plan {
        Err(_) => complaint::complaint(line, plan, text),
        Ok(wishes) => {
            let said = judge_named(rt, line, wishes);
            report::say(said, text)
        }
    }
}

fn cut(line: &[u8], span: Span) -> &[u8]
    requires { Within line.now span }
{
    &line[span.from..span.to]
}

// A file that is not wanted has an empty name, which is no file's.
fn cut_wanted(line: &[u8], span: Option<Span>) -> &[u8]
    requires { IfSome span (Within line.now) }
{
    match span {
        Some(span) => cut(line, span),
        None => &line[..0],
    }
}

// The files whose names stand in the line.
fn judge_named<R: Disk>(rt: &R, line: &[u8], wishes: Wishes) -> Said
    requires { AllWithin line.now wishes }
    ensures { ByFiles (on_files wishes.asked (is_some wishes.out)) result }
{
    filed::judge_files(
        rt,
        wishes.asked,
        wishes.out.is_some(),
        cut(line, wishes.trace),
        cut(line, wishes.table),
        cut_wanted(line, wishes.out),
    )
}
