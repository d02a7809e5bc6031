// The program with an empty choice.
#![tactic(auto)]

fn main(rt: HostRuntime) {
    shell::run(&rt);
}
