// The program: all of it is in the crate gather.
#![tactic(auto)]

fn main(rt: HostRuntime) {
    gather::run(&rt);
}
