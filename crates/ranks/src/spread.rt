// The steps gone back from the records in the queue, in its order.
ghost use Rattle.std.specs.Prelude.{◌≡◌, length};
ghost use Rattle.ranks.specs.Inner.{Marked, Tables, Head, Turned, Ready, SpreadFrom};

// Record `i`, if its step in the table leads to record `j` and it is not known how many it has, has so many, and goes into the queue.
fn mark(
    table: &[u32],
    none: u32,
    j: u32,
    i: u32,
    steps: u32,
    ranks: &mut [u32],
    queue: &mut [u32],
    tail: usize,
) -> usize
    requires { length table.now ≡ length ranks.old }
    ensures { Marked table.now none j i steps ranks.old queue.old tail result ranks.new queue.new }
{
    // a return for each case of `Marked`, which is what the queue's proof goes by
    let place = i as usize;
    if table.len() <= place {
        return tail;
    }
    if table[place] != j {
        return tail;
    }
    if ranks[place] < none {
        return tail;
    }
    if queue.len() <= tail {
        return tail;
    }
    ranks[place] = steps;
    queue[tail] = i;
    tail + 1
}

// The steps of either kind, and turned round: of each record the one whose step of the first kind leads to it, and of the second.
#[derive(Clone, Copy)]
pub(crate) struct Steps<'a> {
    pub(crate) first: &'a [u32],
    pub(crate) second: &'a [u32],
    pub(crate) after: &'a [u32],
    pub(crate) receive: &'a [u32],
}

impl Steps<'_> {
    // One turn: the steps of either kind that lead to the record at the queue's head.
    fn turn(
        self,
        none: u32,
        head: usize,
        ranks: &mut [u32],
        queue: &mut [u32],
        tail: usize,
    ) -> usize
        requires tables { Tables none self.first.now self.second.now self.after.now self.receive.now ranks.old }
        requires head { Head none head ranks.old queue.old }
        ensures { Turned self.entry.first.now self.entry.second.now self.entry.after.now self.entry.receive.now none head ranks.old queue.old tail result ranks.new queue.new }
    {
        let j = queue[head];
        let at = j as usize;
        let steps = ranks[at] + 1;
        let more = mark(
            self.first,
            none,
            j,
            self.after[at],
            steps,
            ranks,
            queue,
            tail,
        );
        mark(
            self.second,
            none,
            j,
            self.receive[at],
            steps,
            ranks,
            queue,
            more,
        )
    }

    pub(crate) fn spread(self, ranks: &mut [u32], queue: &mut [u32], seeds: usize)
        requires { Ready (length ranks.old) self.first.now self.second.now self.after.now self.receive.now ranks.old queue.old seeds }
        ensures { SpreadFrom (length ranks.old) self.entry.first.now self.entry.second.now ranks.old queue.old seeds ranks.new }
    {
        let none = ranks.len() as u32;
        let mut tail = seeds;
        let mut head: usize = 0;
        // no counting: each turn may put records behind the tail
        while head < tail {
            tail = self.turn(none, head, ranks, queue, tail);
            head += 1;
        }
    }
}
