// Document 01, 'The session program': one call a line, one answer a line.
#![tactic(auto)]

fn main(rt: HostRuntime) {
    terminal::run(&mut rt.stdin(), rt.stdout(), false);
}
