// The program: all of it is in the crate inquiry.
#![tactic(auto)]

fn main(rt: HostRuntime) {
    inquiry::show_messages(&rt);
}
