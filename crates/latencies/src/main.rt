// The program: all of it is in the crate tables.
#![tactic(auto)]

fn main(rt: HostRuntime) {
    tables::run(&rt);
}
