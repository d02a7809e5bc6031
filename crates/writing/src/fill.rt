// The written trace put at the start of a room that holds it.
ghost use Rattle.std.specs.Prelude.{◌≡◌, length};
ghost use Rattle.writing.specs.Patched.{bytes_for};
ghost use Rattle.writing.specs.Outcome.{room_after};
ghost use Rattle.writing.specs.Inner.{Held};

use crate::{moves, put};

pub(crate) fn fill(s: &[u8], store: &[u32], times: &[i64], room: &mut [u8])
    requires { Held (bytes_for s.now store.now times.now) (length room.old) }
    ensures { room.new ≡ room_after (bytes_for s.now store.now times.now) room.old }
{
    let mut from: usize = 0;
    let mut to: usize = 0;
    let mut k = moves::next_moved(store, times, 0);
    // no counting: from each moved record to the next
    while k < times.len() {
        let stamp = stamps::stamp_of(s, store, k);
        let at = stamp.at;
        let end = at + stamp.long;
        to = put::put_run(room, to, &s[from..at], times[k]);
        from = end;
        k = moves::next_moved(store, times, k + 1);
    }
    put::put(room, to, &s[from..]);
}
