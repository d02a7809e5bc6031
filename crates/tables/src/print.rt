// What is said on standard output, in one write.
use report::Told;

const STDOUT: i32 = 1;

pub fn tell(told: Told) {
    let mut text = [0u8; 256];
    let n = report::tell(told, &mut text);
    io::write_all(STDOUT, &text[..n]);
}
