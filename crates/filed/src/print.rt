// What is said on standard output, in one write.
use report::Said;

const STDOUT: i32 = 1;

pub fn say(said: Said) {
    let mut text = [0u8; 256];
    let n = report::say(said, &mut text);
    io::write_all(STDOUT, &text[..n]);
}
