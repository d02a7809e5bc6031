// The six fields that every record begins with, read by a cursor as crate field has it.
#![tactic(auto)]

mod head;

ghost use Rattle.paper.specs.Line.{head_of};
ghost use Rattle.field.specs.Cursor.{Tells};
ghost use Rattle.fields.specs.Cursor.{begun_of, begun_next};

use paper::{Fault, Head};

// "fewer than six fields (5); the six fields left to right (5 or 6), the data count here as 0 to 999"
pub fn read_head(l: &[u8]) -> Result<(Head, usize), (Fault, usize)>
    ensures { Tells l.now (begun_of l.now result) (head_of l.now) (begun_next result) }
{
    match head::six(l) {
        Ok(begun) => Ok(begun),
        Err((fault, k)) => Err(head::bad_field(l, fault, k)),
    }
}
