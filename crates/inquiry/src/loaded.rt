// From the names of the files to what is shown of them: "cannot read", refusal 2, and the trace.
ghost use Rattle.std.specs.Prelude.{option_copied};
ghost use Rattle.report.specs.Put.{Put};
ghost use Rattle.inquiry.specs.Program.{TextInto, on_files};

use paper::Asked;
use showing::Shows;
use std::rt::Files;

// What is decoded of a table that could not be read is not looked at.
fn of_bytes(
    shows: Shows,
    asked: Asked,
    trace: Option<&[u8]>,
    table: Option<&[u8]>,
    line: &[u8],
    room: &mut [u8; 524544],
) -> usize
    ensures { Put room.old 0 (on_files shows asked line.now (option_copied trace.entry) (option_copied table.entry)) result room.new }
{
    let mut latencies = files::no_latencies();
    let fits = table::decode(table.unwrap_or(&[]), &mut latencies);
    match decided::ready(trace.is_some(), table.is_some(), fits) {
        Err(said) => showing::say(said, room),
        Ok(()) => showing::show(shows, asked, trace.unwrap_or(&[]), &latencies, line, room),
    }
}

// The files by their names: the table's is not waited for where the trace can't be read.
pub(crate) fn of_names<R: Files>(
    rt: &R,
    shows: Shows,
    asked: Asked,
    trace: &[u8],
    table: &[u8],
    line: &[u8],
    room: &mut [u8; 524544],
) -> usize
    ensures { TextInto (on_files shows asked line.now) room.old result room.new }
{
    let mut bytes = files::trace_buffer();
    let mut held = files::table_buffer();
    let first = files::load(rt, trace, &mut bytes);
    let second = files::load_behind(rt, first.is_ok(), table, &mut held);
    of_bytes(
        shows,
        asked,
        files::held(first, &bytes),
        files::held(second, &held),
        line,
        room,
    )
}
