// The place of each receive's send. "The k-th receive at processor q from p with type t belongs to the k-th send from p to q with
// type t, both counted in file order." Each key has a bucket; the sends of a bucket are linked forwards and its receives
// backwards. The send of a receive is the next one under its key behind the send of the receive before it under that key.
#![tactic(auto)]

ghost use Rattle.std.specs.Prelude.{◌≡◌, ◌+◌, ◌<◌, ◌≤◌, length, replicate};
ghost use Rattle.store.specs.Layout.{too_many, entries_in};
ghost use Rattle.side.specs.Sides.{key_of, bucket_of, send_under, receive_under};
ghost use Rattle.chains.specs.Places.{places, found};
ghost use Rattle.chains.specs.Chains.{Filled, First, Last, Chained, Placing, Forward, Backward, Ready, behind, start_from, send_under_at};

use side::{Key, Side};

// ---- the search for one send

// The first send under the key from `at` on, along the chain of its bucket.
fn next_send(store: &[u32], link: &[u32], at: usize, key: Key) -> usize
    requires { Forward store.now link.now (bucket_of key) at }
    ensures { First (send_under store.now key) (length link.now) at result }
{
    let mut s = at;
    while s < link.len() {
        if side::send_under(store, s, key) {
            return s;
        }
        s = link[s] as usize;
    }
    s
}

// The last receive under the key before place `from`, along the chain of its bucket.
fn prior_receive(store: &[u32], link: &[u32], from: u32, key: Key) -> Option<usize>
    requires { Backward store.now link.now (bucket_of key) from }
    ensures { Last (receive_under store.now key) from (behind result) }
{
    let mut p = from as usize;
    while 0 < p {
        let at = p - 1;
        if side::receive_under(store, at, key) {
            return Some(at);
        }
        p = link[at] as usize;
    }
    None
}

// Where the search starts: at the head of the bucket, or behind the send of the receive before.
fn start_from(sends: &[u32], link: &[u32], head: u32, prior: Option<usize>) -> usize
    requires { behind prior ≤ length sends.now }
    ensures { result ≡ start_from sends.now link.now head (behind prior) }
{
    let Some(at) = prior else {
        return head as usize;
    };
    let s = sends[at] as usize;
    if s < link.len() {
        link[s] as usize
    } else {
        link.len()
    }
}

// The send of a receive under the key that stands behind the receives before place `from`.
fn send_behind(store: &[u32], sends: &[u32], link: &[u32], head: u32, from: u32, key: Key) -> u32
    requires { Ready store.now sends.now link.now (bucket_of key) head from }
    ensures { result ≡ send_under_at (entries_in store.now (length link.now)) (key_of key) from }
{
    let prior = prior_receive(store, link, from, key);
    let start = start_from(sends, link, head, prior);
    let s = next_send(store, link, start, key);
    s as u32
}

// ---- the two passes

// Puts record i in front of the chain of its bucket, where it is a send.
fn chain_one(store: &[u32], link: &mut [u32], heads: &mut [u32], i: usize)
    requires { (i < length link.old) × Chained store.now (length link.old) link.old heads.old (i + 1) }
    ensures { Chained store.now (length link.old) link.new heads.new i }
{
    if let Side::Sends(key) = side::side_at(store, i) {
        let b = side::bucket_of(key);
        link[i] = heads[b];
        heads[b] = i as u32;
    }
}

// Chains the sends, from the last record to the first.
fn chain_sends(store: &[u32], link: &mut [u32], heads: &mut [u32])
    requires { (length link.old < too_many) × Filled heads.old (length link.old) }
    ensures { Chained store.now (length link.old) link.new heads.new 0 }
{
    for i in (0..link.len()).rev() {
        chain_one(store, link, heads, i);
    }
}

// Finds the send of record i, where it is a receive, and puts it at the end of the chain of its bucket.
fn place_one(
    store: &[u32],
    sends: &mut [u32],
    link: &mut [u32],
    heads: &[u32],
    seen: &mut [u32],
    i: usize,
)
    requires { (i < length sends.old) × Placing store.now (length sends.old) sends.old link.old heads.now seen.old i }
    ensures { Placing store.now (length sends.old) sends.new link.new heads.now seen.new (i + 1) }
{
    let Side::Receives(key) = side::side_at(store, i) else {
        sends[i] = sends.len() as u32;
        return;
    };
    let b = side::bucket_of(key);
    let from = seen[b];
    let behind = (i + 1) as u32;
    sends[i] = send_behind(store, sends, link, heads[b], from, key);
    link[i] = from;
    seen[b] = behind;
}

// Places the sends, from the first record to the last.
fn place_sends(store: &[u32], sends: &mut [u32], link: &mut [u32], heads: &[u32], seen: &mut [u32])
    requires { Placing store.now (length sends.old) sends.old link.old heads.now seen.old 0 }
    ensures { Placing store.now (length sends.old) sends.new link.new heads.now seen.new (length sends.old) }
{
    for i in 0..sends.len() {
        place_one(store, sends, link, heads, seen, i);
    }
}

// One number for each bucket.
fn each_bucket(v: u32) -> [u32; 1024]
    ensures { Filled result v }
{
    [v; 1024]
}

fn clear(link: &mut [u32])
    ensures { link.new ≡ replicate (length link.old) 0 }
{
    link.fill(0);
}

// Puts the place of each record's send, and clears the links, which are room for the work: as many as the places. Where they are
// not, or the places are too many, nothing is touched.
pub fn find_sends(store: &[u32], sends: &mut [u32], link: &mut [u32])
    ensures { places sends.new link.new ≡ found store.now sends.old link.old }
{
    if link.len() != sends.len() || store::TOO_MANY <= sends.len() {
        return;
    }
    let mut heads = each_bucket(sends.len() as u32);
    chain_sends(store, link, &mut heads);
    let mut seen = each_bucket(0);
    place_sends(store, sends, link, &heads, &mut seen);
    clear(link);
}
