// A text of latencies made into the bytes of a table file.
#![tactic(auto)]

mod lines;
mod places;
mod spans;

ghost use Rattle.text.specs.Text.{MadeInto};
ghost use Rattle.text.specs.Held.{Unsaid, TableRead};

// Why there is no table: the first bad line, or the first pair, sender and receiver, of which no line says anything.
#[derive(Clone, Copy)]
pub enum Unmade {
    BadLine(usize),
    Open(usize, usize),
}

// The table file's bytes are put into the room where the table is whole; else the room is left alone.
pub fn make(text: &[u8], room: &mut [u8; 16384]) -> Result<(), Unmade>
    ensures { MadeInto text.now room.old result room.new }
{
    let mut latencies = places::unsaid();
    read_table(text, &mut latencies)?;
    table::encode(&latencies, room);
    Ok(())
}

fn read_table(text: &[u8], latencies: &mut [u32]) -> Result<(), Unmade>
    requires { Unsaid latencies.old }
    ensures { TableRead text.now result latencies.new }
{
    lines::read_lines(text, latencies)?;
    places::first_open(latencies)
}
