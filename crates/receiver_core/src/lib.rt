//! A receiver of one channel, as a set-top has it: it asks for a burst (RFC 6285), takes
//! retransmissions (RFC 4588) and multicast packets, and presents each packet once, in order.
//!
//! It opens no socket: datagrams are handed in and out.
#![tactic(auto)]

mod asking;
mod datagrams;
mod lent;
mod numbers;
mod playing;
mod reading;
mod receiver;
mod shown;
mod window;

pub use bumpalo::Bump;
pub use lent::Lent;
pub use ram_io::NoMemory;
pub use rams_model::{InfoCame, MediaCame, Octets, Tuned};
pub use receiver::Receiver;
pub use shown::Shown;
