// The program with a choice that begins as a good one.
#![tactic(auto)]

fn main(rt: HostRuntime) {
    shell::run(&rt);
}
