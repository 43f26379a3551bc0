//! The window in which packets may come out of order.
//!
//! What arrives waits until all numbers before it came, or are too far below the greatest to be
//! waited for. It goes out by rising number, each number once.

mod kept;
mod laws;
mod window;

pub use laws::items_are_packets;
pub use ram_io::NoMemory;
pub use window::{Came, Window};
