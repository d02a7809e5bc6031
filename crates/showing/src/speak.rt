// A line that the programs have in common with the others, at the start of the room.
ghost use Rattle.report.specs.Put.{Put};
ghost use Rattle.report.specs.Said.{said_shown};
ghost use Rattle.showing.specs.Shown.{Wide};

use report::Said;

pub(crate) fn say_into(said: Said, room: &mut [u8]) -> usize
    requires { Wide room.old }
    ensures { Put room.old 0 (said_shown said) result room.new }
{
    let mut line = lines::blank();
    let n = report::say(said, &mut line);
    lines::add(room, 0, &line[..n])
}
