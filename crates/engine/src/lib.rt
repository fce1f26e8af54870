// The discovery engine: what is held, and the calls on it. Sockets, clock and interface news stay with the host.
#![tactic(auto)]

mod address;
pub mod advertisement;
mod announce;
pub mod answer;
pub mod arrays;
mod buffer;
pub mod calls;
mod clamp;
mod delay;
mod due;
pub mod flags;
mod head;
mod interface;
mod lent;
mod links;
mod location;
mod names;
pub mod need;
mod news;
mod outbox;
mod pending;
mod reading;
pub mod refresh_timer;
pub mod refusals;
mod replies;
mod salvo;
mod search;
mod send;
mod shift;
pub mod sizes;
mod source;
mod subscription;
mod target;
mod wanted;
