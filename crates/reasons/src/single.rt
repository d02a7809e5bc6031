// The line of one record of a chain, behind those before it.
ghost use Rattle.std.specs.Prelude.{◌+◌, ◌≤◌, length};
ghost use Rattle.store.specs.Layout.{entries_in};
ghost use Rattle.report.specs.Put.{Short};
ghost use Rattle.lines.specs.Lines.{LineInto};
ghost use Rattle.reasons.specs.Reasons.{reason_of};

use crate::cause::cause_of;

// The line in a room of its own.
fn line_at(
    store: &[u32],
    times: &[i64],
    before: &[u32],
    gap: &[u64],
    latency: &[u32],
    own: u64,
    more: &[u64],
    room: &mut [u8; 256],
) -> usize
    ensures { LineInto (reason_of (entries_in store.now (length times.now)) times.now before.now gap.now latency.now own more.now) room.old result room.new }
{
    let cause = cause_of(store, times, before, gap, latency, own, more);
    let stamped = lines::stamped_at(store, times, own as usize);
    lines::step_line(stamped, cause, room)
}

pub(crate) fn put_reason(
    store: &[u32],
    times: &[i64],
    before: &[u32],
    gap: &[u64],
    latency: &[u32],
    own: u64,
    more: &[u64],
    room: &mut [u8],
    at: usize,
) -> usize
    requires { at + 256 ≤ length room.old }
    ensures { Short 256 room.old at (reason_of (entries_in store.now (length times.now)) times.now before.now gap.now latency.now own more.now) result room.new }
{
    let mut line = lines::blank();
    let n = line_at(store, times, before, gap, latency, own, more, &mut line);
    lines::add(room, at, &line[..n])
}
