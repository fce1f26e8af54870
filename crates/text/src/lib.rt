// Text rules (document 01, 'Text rules') and what the layers above ask of bytes. Every function takes
// any slice; a place that it answers is one of the slice that was lent. Nothing is copied:
// `buffer` alone writes, into a buffer that is lent for that.
// Each module cites the file of specs/ with its name.
#![tactic(auto)]

pub mod buffer;
pub mod bytes;
pub mod good;
pub mod lines;
pub mod number;
pub mod utf8;
pub mod white;
