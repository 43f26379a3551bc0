//! The access points among the packets that a channel holds, and where a burst may begin.
//!
//! The packets themselves stand elsewhere: of each that is no access point only its bytes on the wire
//! are counted here.

mod choice;
mod index;
mod lid;
mod lows;
mod point;
mod points;
mod span;

pub use choice::Choice;
pub use index::Index;
pub use ram_io::NoMemory;
