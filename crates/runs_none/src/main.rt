// The program with no argument.
#![tactic(auto)]

fn main(rt: HostRuntime) {
    shell::run(&rt);
}
