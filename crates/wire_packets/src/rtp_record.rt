//! RTP packets, read in place and written (RFC 3550, 5.1).
//!
//! A packet is read without a copy: contracts see an `Rtp` as the packet's fields, and the readers
//! give them. Which bytes are a packet, with which fields, and which fault the others have, says
//! the definition `packet_at` of `rams_model`.

mod fields;
mod places;
mod rtp;

pub use fields::{RtpFields, append_rtp, append_rtp_behind, write_rtp};
pub use ram_io::NoMemory;
pub use rams_model::RtpFault;
pub use rtp::Rtp;
