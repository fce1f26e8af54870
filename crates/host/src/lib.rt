// The engine and the messages for a host that is not Rattle: what crate `host_c` exports, into libhost.a (`tools/build lib host`). The host owns the five arrays
// of an engine and lends them to each call; numbers alone cross the boundary, so that whatever it lends is content that the contracts speak of.
#![tactic(auto)]

pub mod exported;
pub mod messages;
pub mod needs;
