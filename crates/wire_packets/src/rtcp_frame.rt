//! RTCP packets (RFC 3550, 6): a datagram is taken apart into them, and a receiver's are written.
//!
//! What is read lies in the datagram: nothing is copied.

mod bye;
mod compound;
mod header;
mod iter;
mod packet;
mod report;

pub use bye::{append_bye, bye_names, write_bye};
pub use compound::packets;
pub use iter::Packets;
pub use packet::Packet;
pub use ram_io::NoMemory;
pub use rams_model::FrameFault;
pub use report::{append_rr, append_sdes, write_rr, write_sdes};
