//! Channels on threads that share one link: a thread for each channel, which takes the channel's events
//! and claims the wire size of each packet that is sent again; and one that grants the link's bytes.

mod claiming;
mod granting;
mod lane;
mod pairs;
mod run;

pub use crate::link_pool::{Claim, Ledger, NoMemory};
pub use channel_book::Book;
pub use lane::Lane;
pub use ram_io::Gate;
pub use rams_model::Event;
pub use run::{Pooled, run_pool};
pub use server_hub::session_core::{Config, Core};
