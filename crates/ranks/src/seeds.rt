// The records that have no steps go into the queue first; of the others it is not known how many they have.
ghost use Rattle.std.specs.Prelude.{◌<◌, length};
ghost use Rattle.ranks.specs.Inner.{Few, Sown, Seeded};

fn sow(i: usize, none: u32, ranks: &mut [u32], queue: &mut [u32], tail: usize) -> usize
    requires { (i < length ranks.old) × (i < none) }
    ensures { Sown i none ranks.old queue.old tail result ranks.new queue.new }
{
    if ranks[i] != 0 {
        ranks[i] = none;
        return tail;
    }
    if queue.len() <= tail {
        return tail;
    }
    queue[tail] = i as u32;
    tail + 1
}

// How many there are.
pub(crate) fn seed(ranks: &mut [u32], queue: &mut [u32]) -> usize
    requires { Few (length ranks.old) ranks.old queue.old }
    ensures { Seeded (length ranks.old) ranks.old (length ranks.old) ranks.new queue.new result }
{
    let none = ranks.len() as u32;
    let mut tail: usize = 0;
    for i in 0..ranks.len() {
        tail = sow(i, none, ranks, queue, tail);
    }
    tail
}
