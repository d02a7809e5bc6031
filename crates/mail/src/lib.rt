// "each with its send's place and its receive's place, in file order of receives": the messages of a trace as numbers in a slice, two to a
// message, and any one of them as a pair.
#![tactic(auto)]

ghost use Rattle.std.specs.Prelude.{◌≡◌, ◌/◌, ◌<◌, ◌≤◌, length};
ghost use Rattle.paper.specs.Messages.{messages_to};
ghost use Rattle.mail.specs.Mail.{pair_at, send_at, send_in, Noted, Holds};

use paper::Pair;

// The k-th pair of the numbers, two zeros where there is none.
#[tactic(auto, unfolding(crate::specs::Mail::pair_at))]
pub fn pair_at(numbers: &[u64], k: usize) -> Pair
    ensures { result ≡ pair_at numbers.now k }
{
    if k < numbers.len() / 2 {
        let send = numbers[2 * k];
        let receive = numbers[2 * k + 1];
        return Pair { send, receive };
    }
    Pair {
        send: 0,
        receive: 0,
    }
}

// The message that a record receives, if `send` is a record's place, behind `count` messages; how many there are then.
#[tactic(auto, unfolding(crate::specs::Mail::send_at, crate::specs::Mail::Noted, crate::specs::Mail::put))]
fn note(send: usize, receive: usize, listed: usize, count: usize, numbers: &mut [u64]) -> usize
    requires { count < length numbers.old / 2 }
    ensures { Noted (send_at listed send) receive count numbers.old result numbers.new }
{
    if listed <= send {
        return count;
    }
    numbers[2 * count] = send as u64;
    numbers[2 * count + 1] = receive as u64;
    count + 1
}

// The messages by the places of their sends, which are below the number of records, and how many they are. Numbers that are too few for a
// message of each record are left as they were.
pub fn gather(sends: &[u32], numbers: &mut [u64]) -> usize
    ensures { length sends.now ≤ length numbers.old / 2 → Holds (messages_to (send_in sends.now) (length sends.now)) result numbers.new }
{
    let listed = sends.len();
    if numbers.len() / 2 < listed {
        return 0;
    }
    let mut count: usize = 0;
    for (receive, send) in sends.iter().enumerate() {
        count = note(*send as usize, receive, listed, count, numbers);
    }
    count
}
