// From the bytes of both files to what is said of them: "cannot read", refusal 2, the judgement, and the file for the written trace.
ghost use Rattle.std.specs.Prelude.{◌≡◌, length, option_copied};
ghost use Rattle.files.specs.Told.{ByStored};
ghost use Rattle.filed.specs.Filed.{on_latencies, on_files};
ghost use Rattle.filed.specs.Judged.{JudgedInto};

use files::Disk;
use paper::{Answer, Asked};
use report::Said;

fn blanks() -> [i64; 2048]
    ensures { length result ≡ 2048 }
{
    [0; 2048]
}

fn judge_into(
    asked: Asked,
    wanted: bool,
    trace: &[u8],
    latencies: &[u32],
    room: &mut [u8; 65536],
) -> Answer
    ensures { JudgedInto asked wanted trace.now latencies.now result room.new }
{
    let mut times = blanks();
    judge::judge(trace, latencies, asked, &mut times, wanted, room)
}

fn concluded<R: Disk>(
    rt: &R,
    asked: Asked,
    wanted: bool,
    trace: &[u8],
    latencies: &[u32],
    out: &[u8],
) -> Said
    ensures { ByStored (on_latencies asked wanted trace.now latencies.now) result }
{
    let mut room = io::large_buffer();
    let answer = judge_into(asked, wanted, trace, latencies, &mut room);
    let n = answer.written as usize;
    let storing = decided::to_store(wanted, answer);
    let stored = files::store_asked(rt, storing, out, &room[..n]);
    decided::ended(storing, answer, stored)
}

// "The table file is 16,384 bytes, four for each latency, low byte first, any other length being refusal 2." What is
// decoded of a table that could not be read is not looked at.
pub(crate) fn judged<R: Disk>(
    rt: &R,
    asked: Asked,
    wanted: bool,
    trace: Option<&[u8]>,
    table: Option<&[u8]>,
    out: &[u8],
) -> Said
    ensures { ByStored (on_files asked wanted (option_copied trace.entry) (option_copied table.entry)) result }
{
    let mut latencies = files::no_latencies();
    let fits = table::decode(table.unwrap_or(&[]), &mut latencies);
    match decided::ready(trace.is_some(), table.is_some(), fits) {
        Err(said) => said,
        Ok(()) => concluded(rt, asked, wanted, trace.unwrap_or(&[]), &latencies, out),
    }
}
