// The program: all of it is in the crate shell.
#![tactic(auto)]

fn main(rt: HostRuntime) {
    shell::run(&rt);
}
