// The numbers of one record. specs/Layout.antt says which stands where.
ghost use Rattle.std.specs.Prelude.{◌≡◌, ◌<◌};
ghost use Rattle.signed.specs.Codes.{decoded};
ghost use Rattle.store.specs.Layout.{width};
ghost use Rattle.store.specs.Parts.{part_at, message_at};

use paper::Message;

// how many numbers a record takes
pub(crate) const WIDTH: usize = 10;

// The k-th number of the record at place i, 0 where there is no such place.
pub(crate) fn part(store: &[u32], i: usize, k: usize) -> u32
    requires { k < width }
    ensures { result ≡ part_at store.now i k }
{
    if store.len() / WIDTH <= i {
        return 0;
    }
    store[i * WIDTH + k]
}

// The signed number whose code is the k-th number.
pub(crate) fn whole(store: &[u32], i: usize, k: usize) -> i64
    requires { k < width }
    ensures { result ≡ decoded (part_at store.now i k) }
{
    let code = part(store, i, k);
    signed::from_code(u64::from(code))
}

pub(crate) fn message(store: &[u32], i: usize) -> Message
    ensures { result ≡ message_at store.now i }
{
    let length = part(store, i, 7);
    let tag = whole(store, i, 8);
    let peer = part(store, i, 9);
    Message {
        length: u64::from(length / 2),
        tag,
        peer: (peer / 2 % 64) as usize,
    }
}
