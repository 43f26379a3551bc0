//! A lock that serves its callers in turn, round the book of one channel.
//!
//! A caller draws a ticket for each event that it has, waits until the first is served, steps the book
//! with all of them and passes the turn on. Each caller has a pass, which knows the history as the caller
//! has seen it; whichever callers step beside each other, what they have seen are beginnings of one legal
//! history.

mod lock;
mod pass;
mod passes;
mod sharing;
mod steps;
mod turns;
mod work;

pub use crate::{Answer, Book, Config, Core, Entry, Event, NoMemory, Shared};
pub use lock::{ChannelLock, CloseFault};
pub use pass::Pass;
