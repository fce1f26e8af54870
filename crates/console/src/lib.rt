// What the programs `session` and `trace` are made of: document 01, 'The session program'. Everything here works on slices that
// the program lends; reading and writing standard streams stays with the program.
#![tactic(auto)]

pub mod address;
pub mod buffer;
pub mod command;
pub mod datagram;
pub mod decimal;
pub mod field;
pub mod hexadecimal;
pub mod input;
pub mod part;
