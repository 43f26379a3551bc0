//! The packets that a channel holds of its live stream.
//!
//! A live packet is tested, numbered, put in order and held, its memory taken first. Contracts see a
//! cache by the live packets that it stands for: the note of each and what is held are those that the
//! definitions give them.
#![tactic(auto)]

pub mod access_index;
mod blocks;
mod cache;
mod incoming;
mod intake;
mod laws;
pub mod packet_ring;
pub mod reorder_window;
mod starts;
mod stock;
pub mod ts_access;

pub use crate::access_index::Choice;
pub use cache::Cache;
pub use channel_config::Config;
pub use incoming::Incoming;
pub use laws::notes_are_of_the_book;
pub use ram_io::NoMemory;
pub use rams_model::{Held, LiveNote};
