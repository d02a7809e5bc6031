// "Event types are sorted by range": the paper's table as one match, a line to each of its rows. Of the messages -21 is send0, -27 to -31
// are sendbegin0, sendstatus0 and sendend0; -51 and -52 are recv0, -57 to -61 recvbegin0, recvstatus0 and recvend0.
#![tactic(auto)]

ghost use Rattle.std.specs.Prelude.{◌≡◌};
ghost use Rattle.paper.specs.Events.{standing_of};

use paper::Standing;

pub fn standing(event: i64) -> Standing
    ensures { result ≡ standing_of event }
{
    match event {
        0..=999_999_999 => Standing::Listed,
        -12..=-11 => Standing::Listed,
        -21 | -31..=-27 | -52..=-51 | -61..=-57 => Standing::Message,
        -26..=-22 | -50..=-32 | -56..=-53 | -80..=-62 => Standing::NotHandled,
        -202..=-201
        | -221
        | -251
        | -402..=-401
        | -503..=-501
        | -603..=-601
        | -904..=-901
        | -914..=-911 => Standing::Listed,
        _ => Standing::Unlisted,
    }
}
