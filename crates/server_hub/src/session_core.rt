//! The core of one channel: what it answers to each event, and what it keeps of it.
//!
//! A core takes live packets, feedback datagrams and ticks. Each answer is the one lawful answer to its
//! event after the events before it, by the definitions of a channel's history.

mod channel;
mod live;

pub use channel::Core;
pub use channel_cache::Incoming;
pub use channel_config::Config;
pub use feedback_core::{LONGEST_DATAGRAM, Most, most_in};
pub use ram_io::NoMemory;
pub use rams_model::{Answer, Event, LiveNote};
pub use tick_core::{Sums, TickPlan};
