//! The summary of a generated trace: how many notes of each kind its answers have, and how many bytes
//! they send.

mod counts;
mod examples;
mod tally;

pub use counts::Counts;
pub use examples::{four_blocks, one_block};
pub use ram_io::NoMemory;
pub use rams_model::Answer;
pub use tally::Tally;
