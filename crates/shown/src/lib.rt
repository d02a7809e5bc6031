// One time written, in document 01's form of a time. What stands there and how long it is, the crate paper says (specs/Forms.antt,
// `time_shown`); the public functions take anything.
#![tactic(auto)]

mod write;

ghost use Rattle.std.specs.Prelude.{◌≡◌};
ghost use Rattle.shown.specs.Writes.{shown_length, TimePut};

// Why nothing was written.
#[derive(Clone, Copy)]
pub enum Unput {
    NoRoom,
    NoTime,
}

// A time written at `at`, in the form that `read_time` reads. Nothing is touched where the room is too short for it, or where
// it is above 999,999,999,999,999 on either side of zero and so has no such form.
pub fn write_time(room: &mut [u8], at: usize, time: i64) -> Result<usize, Unput>
    ensures { TimePut room.old at time result room.new }
{
    let Some(size) = write::size_of(time) else {
        return Err(Unput::NoTime);
    };
    write::put_signed(room, at, time < 0, size)
}

// How many bytes `write_time` takes for a time: 0 for one that has no form.
pub fn shown_length(time: i64) -> usize
    ensures { result ≡ shown_length time }
{
    let Some(size) = write::size_of(time) else {
        return 0;
    };
    write::signed_length(time < 0, size)
}
