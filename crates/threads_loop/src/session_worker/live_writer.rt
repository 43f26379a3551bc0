//! A caller of a shared channel: it takes the events of its list in pieces, each in one turn, and renders
//! the datagrams of the answers while another caller may step the channel.

mod rendering;
mod writer;

pub use channel_book::{Answer, Config, Event, NoMemory, Shared};
pub use ram_io::Gate;
pub use rams_model::{Octets, Order};
pub use rendering::render;
pub use writer::{Placed, write_all};
