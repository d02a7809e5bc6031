// The messages of a trace as text, a line to each and in file order of receives.
#![tactic(auto)]

mod single;

ghost use Rattle.std.specs.Prelude.{◌≡◌, ◌+◌, ◌*◌, ◌≤◌, ◌<◌, length};
ghost use Rattle.paper.specs.Clock.{time_at};
ghost use Rattle.paper.specs.Messages.{message_at};
ghost use Rattle.store.specs.Layout.{entries_in};
ghost use Rattle.mail.specs.Mail.{send_in};
ghost use Rattle.report.specs.Put.{Short};
ghost use Rattle.deliveries.specs.Deliveries.{lines_of, pairs_in, fitting, DeliveredInto};

// The message that the record at place i receives, where it receives one.
fn put_received(
    store: &[u32],
    sends: &[u32],
    times: &[i64],
    i: usize,
    room: &mut [u8],
    at: usize,
) -> usize
    requires { (i < length sends.now) × (length times.now ≡ length sends.now) × (at + 256 ≤ length room.old) }
    ensures { Short 256 room.old at (lines_of (entries_in store.now (length times.now)) (time_at times.now) (message_at i (send_in sends.now i))) result room.new }
{
    let send = sends[i] as usize;
    if times.len() <= send {
        return at;
    }
    let mut line = lines::blank();
    let n = single::line_of(store, times, send, i, &mut line);
    lines::add(room, at, &line[..n])
}

// The lines of all messages.
fn put_lines(store: &[u32], sends: &[u32], times: &[i64], room: &mut [u8]) -> usize
    requires { (length times.now ≡ length sends.now) × (256 * length sends.now + 256 ≤ length room.old) }
    ensures { Short (256 * length sends.now) room.old 0 (lines_of (entries_in store.now (length times.now)) (time_at times.now) (pairs_in sends.now)) result room.new }
{
    let mut at = 0;
    for i in 0..sends.len() {
        at = put_received(store, sends, times, i, room, at);
    }
    at
}

// A room for a line of each record, and of one more.
fn fits(sends: usize, times: usize, room: usize) -> bool
    ensures { result ≡ fitting sends times room }
{
    times == sends && sends < room / 256
}

// The text at the room's start, and its length: of the records in the store, the places of their sends and their times. Silence is no
// answer: where no message is received, that is said. Where the slices do not fit, nothing is touched.
pub fn put_messages(store: &[u32], sends: &[u32], times: &[i64], room: &mut [u8]) -> usize
    ensures { DeliveredInto store.now sends.now times.now room.old result room.new }
{
    if !fits(sends.len(), times.len(), room.len()) {
        return 0;
    }
    let n = put_lines(store, sends, times, room);
    if n == 0 {
        return lines::add(room, 0, b"no messages\n");
    }
    n
}
