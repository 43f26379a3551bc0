//! Classic capture files (pcap), read as what a trace has: the byte order of a file's head, the moment
//! and the length of a record, the UDP datagram in a frame, and the ticks between moments.
//!
//! What is read lies in the bytes that are given: nothing is copied.

mod due;
mod frame;
mod head;
mod header;
mod kind;
mod laws;
mod numbers;

pub use due::Due;
pub use frame::{Udp, datagram};
pub use head::{CaptureFault, Endian, HEAD_SIZE, read_head};
pub use header::{HEADER_SIZE, MOST_CAPTURED, Record, read_record};
pub use kind::{FileKind, file_kind};
pub use laws::ticks_are_due;
