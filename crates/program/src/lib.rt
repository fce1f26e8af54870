// The programs `session` and `trace` between their standard streams: document 01, 'The session program'. specs/Program.antt says what is printed for an
// input; each function here takes in a part of the input, or none, and gives a part of that. Reading and writing the streams is in crate `terminal`.
#![tactic(auto)]

mod line;
pub mod state;
pub mod step;
