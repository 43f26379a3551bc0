//! The lines of an answer: those of its notes, and of the datagrams that they ask for.

mod answer;
mod asking;
mod entry;
mod orders;

pub use answer::{append_answer, append_answer_with};
pub use entry::append_entry;
pub use orders::Orders;
