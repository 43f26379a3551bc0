//! The head of a trace that a command goes on from, up to `end`: it opens channels, and what is left
//! behind it is the command's. And what comes to the ports of these channels.

mod head;
mod ports;

pub use head::{Head, HeadLine, Opened, read_head};
pub use ports::{Addressed, event_at};
