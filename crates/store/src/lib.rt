// The records' store: the listed records wait in one lent slice of numbers. Only this crate knows how many numbers a record takes and
// which of them stands where; specs/Layout.antt says it.
#![tactic(auto)]

mod numbers;
mod parts;

ghost use Rattle.std.specs.Prelude.{◌≡◌};
ghost use Rattle.paper.specs.Columns.{whole_line};
ghost use Rattle.store.specs.Layout as layout;
ghost use Rattle.store.specs.Layout.{entry_from, start_from, put_at, On};

use paper::{Data, Entry, Record, Role, Site};
use parts::WIDTH;

// A record's place is kept in 32 bits, and so is the number of the records, which stands for no place.
pub const TOO_MANY: usize = 4_294_967_296;

// How many records there is room for.
pub fn capacity(store: &[u32]) -> usize
    ensures { result ≡ layout.capacity store.now }
{
    store.len() / WIDTH
}

// Room for 2,048 records.
pub fn empty() -> [u32; 20480]
    ensures { layout.capacity result ≡ 2048 }
{
    [0; 20480]
}

// Puts a record, whose line starts at a place of the trace, into place i, where there is room for it.
pub fn put(store: &mut [u32], i: usize, line: usize, start: usize, body: Record)
    ensures { store.new ≡ put_at store.old i start (record { line = line; body = body }) }
{
    if store.len() / WIDTH <= i {
        return;
    }
    let at = i * WIDTH;
    let numbers = numbers::numbers_of(line, start, body);
    store[at..at + WIDTH].copy_from_slice(&numbers);
}

// ---- the record at place i, part by part

pub fn time_at(store: &[u32], i: usize) -> i64
    ensures { result ≡ (entry_from store.now i).body.time }
{
    let low = parts::part(store, i, 0);
    let high = parts::part(store, i, 1);
    signed::from_code(u64::from(low) + 4_294_967_296 * u64::from(high))
}

pub fn processor_at(store: &[u32], i: usize) -> usize
    ensures { On (entry_from store.now i) result }
{
    let mixed = parts::part(store, i, 4);
    (mixed % 64) as usize
}

pub fn role_at(store: &[u32], i: usize) -> Role
    ensures { result ≡ (entry_from store.now i).body.role }
{
    let mixed = parts::part(store, i, 4);
    let among = mixed / 64 % 4;
    if among == 1 {
        let m = parts::message(store, i);
        return Role::Send(m);
    }
    if among == 2 {
        let m = parts::message(store, i);
        return Role::Receive(m);
    }
    Role::Neither
}

pub fn kind_at(store: &[u32], i: usize) -> i64
    ensures { result ≡ (entry_from store.now i).body.kind }
{
    parts::whole(store, i, 5)
}

pub fn event_at(store: &[u32], i: usize) -> i64
    ensures { result ≡ (entry_from store.now i).body.event }
{
    parts::whole(store, i, 6)
}

pub fn values_at(store: &[u32], i: usize) -> Data
    ensures { result ≡ (entry_from store.now i).body.values }
{
    let mixed = parts::part(store, i, 4);
    let form = mixed / 256;
    if form == 1 {
        let a = parts::whole(store, i, 7);
        let b = parts::whole(store, i, 8);
        let c = parts::whole(store, i, 9);
        return Data::Three(a, b, c);
    }
    Data::Others
}

pub fn line_at(store: &[u32], i: usize) -> usize
    ensures { result ≡ (entry_from store.now i).line }
{
    let line = parts::part(store, i, 2);
    line as usize
}

// Its line as a whole, for a refusal.
pub fn site_at(store: &[u32], i: usize) -> Site
    ensures { result ≡ whole_line (entry_from store.now i).line }
{
    Site {
        line: line_at(store, i),
        column: 0,
    }
}

pub fn start_at(store: &[u32], i: usize) -> usize
    ensures { result ≡ start_from store.now i }
{
    let start = parts::part(store, i, 3);
    start as usize
}

// The whole record.
pub fn entry_at(store: &[u32], i: usize) -> Entry
    ensures { result ≡ entry_from store.now i }
{
    let line = line_at(store, i);
    let time = time_at(store, i);
    let processor = processor_at(store, i);
    let kind = kind_at(store, i);
    let event = event_at(store, i);
    let values = values_at(store, i);
    let role = role_at(store, i);
    Entry {
        line,
        body: Record {
            time,
            processor,
            kind,
            event,
            values,
            role,
        },
    }
}
