// What a stored record is to the matching: a send or a receive under a key, "from p to q with type t".
#![tactic(auto)]

ghost use Rattle.std.specs.Prelude.{◌≡◌};
ghost use Rattle.side.specs.Sides.{side_for, side_at, Bucket, send_under, receive_under};

use paper::Role;

// From whom to whom, with which tag.
#[derive(Clone, Copy, PartialEq, Eq)]
pub struct Key {
    pub sender: usize,
    pub receiver: usize,
    pub tag: i64,
}

#[derive(Clone, Copy)]
pub enum Side {
    Neither,
    Sends(Key),
    Receives(Key),
}

#[tactic(auto, unfolding(crate::specs::Sides::side_for))]
fn side_for(processor: usize, role: Role) -> Side
    ensures { result ≡ side_for processor role }
{
    match role {
        Role::Neither => Side::Neither,
        Role::Send(m) => Side::Sends(Key {
            sender: processor,
            receiver: m.peer,
            tag: m.tag,
        }),
        Role::Receive(m) => Side::Receives(Key {
            sender: m.peer,
            receiver: processor,
            tag: m.tag,
        }),
    }
}

// The side of the record at place i of a store.
#[tactic(auto, unfolding(crate::specs::Sides::side_at))]
pub fn side_at(store: &[u32], i: usize) -> Side
    ensures { result ≡ side_at store.now i }
{
    side_for(store::processor_at(store, i), store::role_at(store, i))
}

// Record i is a send under the key.
pub fn send_under(store: &[u32], i: usize, key: Key) -> bool
    ensures { result ≡ send_under store.now key i }
{
    match side_at(store, i) {
        Side::Sends(k) => key == k,
        Side::Neither | Side::Receives(_) => false,
    }
}

// Record i is a receive under the key.
pub fn receive_under(store: &[u32], i: usize, key: Key) -> bool
    ensures { result ≡ receive_under store.now key i }
{
    match side_at(store, i) {
        Side::Receives(k) => key == k,
        Side::Neither | Side::Sends(_) => false,
    }
}

// The bucket of a key, one of 1,024.
pub fn bucket_of(key: Key) -> usize
    ensures { Bucket key result }
{
    let tag = (signed::code(key.tag) % 1024) as usize;
    (key.sender % 64 * 64 + key.receiver % 64 + tag * 37) % 1024
}
