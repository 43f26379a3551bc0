//! The repairs that the clients of a channel wait for, in the order in which they were asked for.
//!
//! A repair is a packet that a client named in a generic NACK (RFC 4585, 6.2.1) and that is sent to it
//! in a later tick (RFC 4588). A channel has at most 4,096 of them, and each client at most 256.
#![tactic(auto)]

mod backlog;
mod block;
mod counts;
mod flags;
mod index;
mod marks;
mod piece;
mod places;
mod queue;
mod span;
mod tail;
mod wanted;

pub use piece::Piece;
pub use queue::Queue;
pub use ram_io::NoMemory;
pub use wanted::{Asked, MOST_PENDING, Wanted};
