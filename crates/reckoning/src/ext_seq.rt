//! Extended sequence numbers, and the age of a timestamp.
//!
//! A sequence number of RTP has 16 bits. The numbering of a channel extends it by how often it went
//! around (RFC 3550, A.1), and what later names a packet by its low 16 bits is resolved here.

mod distance;
mod low_bits;
mod numbering;

pub use distance::{SEQUENCE_NUMBERS, TICKS_PER_MS, age_ms, ahead};
pub use low_bits::{least_from, resolve_in};
pub use numbering::{Noted, Numbering};
