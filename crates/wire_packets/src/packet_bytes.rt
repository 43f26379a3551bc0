//! Bytes of packets: their version, 32-bit words that are looked for, and pieces that are put
//! together.

mod piece;
mod version;
mod words;

pub use piece::put;
pub use version::VERSION_2;
pub use words::has_word;
