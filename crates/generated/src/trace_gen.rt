//! Generated traces: the events of a seed, block after block.
//!
//! A block is ten live packets of drawn sizes, a feedback datagram in three of four blocks (a request,
//! a NACK, a stop), and a tick. What the events are, as one list, says `made` in `specs/`.

mod channel;
mod draw;
mod event;
mod examples;
mod made;
mod packet;
mod page;

pub use channel::config_of;
pub use channel_config::Config;
pub use event::{event_into, event_of, next_event};
pub use examples::{draws_of_a_seed, events_of_a_seed};
pub use made::Made;
pub use page::{Kind, Next, Packet};
pub use ram_io::NoMemory;
pub use rams_model::Event;
