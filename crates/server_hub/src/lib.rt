//! The channels of a server: each event goes to the channel that it names, and a tick to all.
//!
//! A hub stands for what came to its channels: each call that answers leaves it standing for that and
//! this event, and what it answers is what the channels' one lawful book has.
#![tactic(auto)]

mod event;
mod hub;
pub mod laws;
mod places;
pub mod session_core;
mod steps;
mod ticks;

pub use channel_config::Config;
pub use event::{AddFault, At, Heard, HubAnswer, HubEvent, answers_of};
pub use hub::Hub;
pub use ram_io::NoMemory;
pub use rams_model::{Answer, Octets};
