//! What a channel answers to a feedback datagram (RFC 4585, RFC 6285).
//!
//! A datagram concerns one client alone. What its answers need of memory is taken first; then its
//! messages are answered in order on a copy of what is kept of the client, and nothing can fail.
#![tactic(auto)]

mod answering;
mod bye;
mod counting;
mod desk;
mod feedback;
mod framing;
mod holding;
mod nack;
mod pad;
mod page;
mod placing;
mod rams_i;
mod rams_r;
mod rams_t;
mod said;
mod visitor;

pub use channel_parts::Parts;
pub use counting::{LONGEST_DATAGRAM, Most, most_in};
pub use feedback::answer_feedback;
pub use ram_io::NoMemory;
pub use rams_model::Answer;
