// From the bytes of both traces to what is said of them: "cannot read", the merging, and the file for the merged trace. Both traces are
// lent for one lifetime, as the merging takes them.
ghost use Rattle.std.specs.Prelude.{option_copied};
ghost use Rattle.files.specs.Told.{ByStored};
ghost use Rattle.gather.specs.Program.{on_traces, on_files};
ghost use Rattle.gather.specs.Joined.{JoinedInto};

use files::Disk;
use paper::{Joined, Unmerged};
use report::Replied;

fn join_into<'a>(
    choice: u32,
    first: &'a [u8],
    second: &'a [u8],
    room: &mut [u8; 65536],
) -> Result<Joined, Unmerged>
    ensures { JoinedInto choice first.now second.now result room.new }
{
    merging::join(first, second, choice, room)
}

// Only what was merged goes to its file.
fn concluded<'a, R: Disk>(
    rt: &R,
    choice: u32,
    first: &'a [u8],
    second: &'a [u8],
    out: &[u8],
) -> Replied
    ensures { ByStored (on_traces choice first.now second.now) result }
{
    let mut room = io::large_buffer();
    let joint = join_into(choice, first, second, &mut room);
    let merged = merging::told(joint);
    let n = merged.written as usize;
    let stored = files::store_asked(rt, merged.number == 0, out, &room[..n]);
    decided::after_merging(joint, merged, stored)
}

pub(crate) fn of_both<'a, R: Disk>(
    rt: &R,
    choice: u32,
    first: Option<&'a [u8]>,
    second: Option<&'a [u8]>,
    out: &[u8],
) -> Replied
    ensures { ByStored (on_files choice (option_copied first.entry) (option_copied second.entry)) result }
{
    let Some(first) = first else {
        return Replied::CannotRead;
    };
    let Some(second) = second else {
        return Replied::CannotRead;
    };
    concluded(rt, choice, first, second, out)
}
