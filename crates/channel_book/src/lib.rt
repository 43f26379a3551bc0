//! The book of one channel, as its callers share it: each event with the list that it came by, and the
//! answer that was given to it, oldest first.
//!
//! A book steps the core of its channel. What an entry keeps is copied before the core changes, so that
//! after want of memory the book is as before.
#![tactic(auto)]

mod book;
pub mod channel_lock;
mod copies;
mod entry;
mod shared;
mod twice;

pub use book::Book;
pub use entry::Entry;
pub use ram_io::NoMemory;
pub use rams_model::{Answer, Event};
pub use server_hub::session_core::{Config, Core};
pub use shared::Shared;
