// The program with one argument too many.
#![tactic(auto)]

fn main(rt: HostRuntime) {
    shell::run(&rt);
}
