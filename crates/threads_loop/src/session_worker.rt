//! The lists of one channel, each on a thread of its own.
//!
//! Each list has a pass of the channel's lock. Its thread takes the list's events one after another,
//! and renders what they are answered with while another thread may step the channel. Then the lock is
//! closed with all passes.

mod gather;
pub mod live_writer;
mod run;
mod worker;

pub use channel_book::{Book, Config, Core, Entry, Event, NoMemory};
pub use ram_io::{Gate, Open};
pub use rams_model::Octets;
pub use run::{Worked, run_lists};
