// The line of one message, by the places of its records.
ghost use Rattle.std.specs.Prelude.{◌≡◌, ◌<◌, length};
ghost use Rattle.paper.specs.Clock.{time_at};
ghost use Rattle.store.specs.Layout.{entries_in};
ghost use Rattle.lines.specs.Lines.{LineInto};
ghost use Rattle.deliveries.specs.Deliveries.{message_in, line_of};

use paper::{Message, Role};

// What a record that sends or receives says of its message, and nothing of any other.
fn message_in(role: Role) -> Message
    ensures { result ≡ message_in role }
{
    match role {
        Role::Neither => Message {
            length: 0,
            tag: 0,
            peer: 0,
        },
        Role::Send(m) => m,
        Role::Receive(m) => m,
    }
}

pub(crate) fn line_of(
    store: &[u32],
    times: &[i64],
    send: usize,
    receive: usize,
    room: &mut [u8; 256],
) -> usize
    requires { (send < length times.now) × (receive < length times.now) }
    ensures { LineInto (line_of (entries_in store.now (length times.now)) (time_at times.now) (record { send = send; receive = receive })) room.old result room.new }
{
    let from = lines::stamped_at(store, times, send);
    let to = lines::stamped_at(store, times, receive);
    let sent = message_in(store::role_at(store, send));
    let received = message_in(store::role_at(store, receive));
    lines::message_line(from, to, received.length, sent.length, received.tag, room)
}
