// The program with a name that leads to the trace and is longer than any name may be.
#![tactic(auto)]

fn main(rt: HostRuntime) {
    shell::run(&rt);
}
