// The program: all of it is in the crate rollout.
#![tactic(auto)]

fn main(rt: HostRuntime) {
    rollout::run(&rt);
}
