// What a line of the programs `session` and `trace` asks of the engine, and what is printed of it: document 01, 'The session program'.
// Reading and writing standard streams is in crate `terminal`.
#![tactic(auto)]

pub mod answer;
mod call;
pub mod record;
pub mod session;
