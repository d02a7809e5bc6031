// Bytes put into the room at a place.
ghost use Rattle.std.specs.Prelude.{◌++◌, ◌≡◌, ◌+◌, ◌≤◌, length, nat_abs};
ghost use Rattle.std.proofs.lemmas.List.Edits.{sets};
ghost use Rattle.paper.specs.Forms.{time_shown};
ghost use Rattle.writing.specs.Inner.{Stored};

pub(crate) fn put(room: &mut [u8], at: usize, word: &[u8])
    requires { at + length word.now ≤ length room.old }
    ensures { room.new ≡ sets room.old at word.now }
{
    room[at..at + word.len()].copy_from_slice(word);
}

// A word and a time, answering the place behind them. The time has a form and there is room, so that it is always written.
pub(crate) fn put_run(room: &mut [u8], at: usize, word: &[u8], time: i64) -> usize
    requires { (nat_abs time ≤ 999999999999999) × (at + length word.now + length (time_shown time) ≤ length room.old) }
    ensures { Stored room.old at (word.now ++ time_shown time) result room.new }
{
    put(room, at, word);
    shown::write_time(room, at + word.len(), time).unwrap_or(at)
}
