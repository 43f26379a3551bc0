//! What a channel was asked, and what it answered.
use rams_model::{Answer, Event};

/// An event of a channel, by which list it came, and the answer that was given.
#[derive(Drop)]
pub struct Entry {
    /// The number of the list.
    pub list: u16,
    pub event: Event,
    pub answer: Answer,
}
