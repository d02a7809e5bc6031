// The program, and then the file that it wrote.
#![tactic(auto)]

const STDOUT: i32 = 1;

fn main(rt: HostRuntime) {
    shell::run(&rt);
    let mut text = io::large_buffer();
    let (Ok(n) | Err(n)) = files::load(&rt, b"out", &mut text);
    io::write_all(STDOUT, &text[..n]);
}
