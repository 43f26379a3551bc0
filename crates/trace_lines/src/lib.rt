//! One line of a trace, read.
#![tactic(auto)]

mod bytes;
mod channel_line;
mod fields;
mod kinds;
mod line;
mod numbers;
mod ranges;
mod read;
mod receivers;
mod values;
mod words;

pub use bytes::{decode, decode_to};
pub use line::Line;
pub use rams_model::LineFault;
pub use ranges::is_in_range;
pub use read::{LONGEST_LINE, read_line, read_unranged};
pub use values::number;
pub use words::{Words, first_word};
