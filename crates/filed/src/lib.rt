// Two files judged, from their names to what is said of them: what both programs that judge a trace have in common. What is said is a
// function of what the files hold and of whether OUT could be written (specs/Filed.antt); the functions here ask the system for these.
#![tactic(auto)]

mod judged;
mod print;

ghost use Rattle.files.specs.Told.{ByFiles};
ghost use Rattle.filed.specs.Filed.{on_files};

use files::Disk;
use paper::Asked;
pub use print::say;
use report::Said;

// The files by their names: the table's is not waited for where the trace can't be read. Where the written trace is not wanted, the name
// `out` is not looked at.
pub fn judge_files<R: Disk>(
    rt: &R,
    asked: Asked,
    wanted: bool,
    trace: &[u8],
    table: &[u8],
    out: &[u8],
) -> Said
    ensures { ByFiles (on_files asked wanted) result }
{
    let mut bytes = files::trace_buffer();
    let mut held = files::table_buffer();
    let first = files::load(rt, trace, &mut bytes);
    let second = files::load_behind(rt, first.is_ok(), table, &mut held);
    judged::judged(
        rt,
        asked,
        wanted,
        files::held(first, &bytes),
        files::held(second, &held),
        out,
    )
}
