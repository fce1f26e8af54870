// The archive of crate `host`: each function that it has for a host that is not Rattle, exported under its name and with its clauses. A library exports nothing
// itself, and a static library is nobody's dependency. Hosts link it as libhost.a.
#![tactic(auto)]

pub mod exported;
pub mod messages;
pub mod needs;
