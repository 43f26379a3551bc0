//! Retransmission packets, written and read (RFC 4588, 4).
//!
//! A retransmission is the original packet under another payload type and sequence number, without
//! padding, and with the original number in front of its payload.

mod plain;
mod restoring;
mod writing;

pub use crate::rtp_record::Rtp;
pub use plain::{append_plain, is_plain};
pub use ram_io::NoMemory;
pub use restoring::{RtxFault, restore, restoring_gives_the_original};
pub use writing::{append_rtx, write_rtx};
