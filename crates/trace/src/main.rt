// The session with what left and whom it told: behind each answer a line of news and one a record.
#![tactic(auto)]

fn main(rt: HostRuntime) {
    terminal::run(&mut rt.stdin(), rt.stdout(), true);
}
