// Which records are like each other: those of a record type and an event, on a processor.
ghost use Rattle.std.specs.Prelude.{◌≡◌};
ghost use Rattle.statistics.specs.Keys.{key_at, under, Bucket};
ghost use Rattle.store.specs.Layout.{entry_from};

#[derive(Clone, Copy)]
pub(crate) struct Key {
    pub kind: i64,
    pub event: i64,
    pub processor: usize,
}

// Of the record at place i of a store.
#[tactic(auto, unfolding(crate::specs::Keys::key_at))]
pub(crate) fn key_at(store: &[u32], i: usize) -> Key
    ensures { result ≡ key_at store.now i }
{
    let kind = store::kind_at(store, i);
    let event = store::event_at(store, i);
    let processor = store::processor_at(store, i);
    Key {
        kind,
        event,
        processor,
    }
}

// Most records of a bucket are of another event or processor, which are asked first.
#[tactic(auto, using(crate::proofs::Signs::signed_tests), unfolding(crate::specs::Keys::under, paper::specs::Statistics::is_of))]
pub(crate) fn is_under(store: &[u32], i: usize, key: Key) -> bool
    ensures { result ≡ under key (entry_from store.now i) }
{
    store::processor_at(store, i) == key.processor
        && store::event_at(store, i) == key.event
        && store::kind_at(store, i) == key.kind
}

// The bucket of a key, one of 1,024.
#[tactic(auto, unfolding(crate::specs::Keys::bucket_of))]
pub(crate) fn bucket_of(key: Key) -> usize
    ensures { Bucket key result }
{
    let event = (signed::code(key.event) % 1024) as usize;
    let kind = (signed::code(key.kind) % 16) as usize;
    (key.processor % 64 * 64 + event * 37 + kind * 5) % 1024
}
