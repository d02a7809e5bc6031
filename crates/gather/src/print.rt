// What is said on standard output, in one write.
use report::Replied;

const STDOUT: i32 = 1;

pub fn reply(replied: Replied) {
    let mut text = [0u8; 256];
    let n = report::reply(replied, &mut text);
    io::write_all(STDOUT, &text[..n]);
}
