//! From a channel's order to the bytes that go out.
//!
//! An order asks for one datagram: the retransmission of a packet that was held (RFC 4588, 4), or a
//! RAMS-I (RFC 6285, 7.3). Which bytes these are says the definition `datagram` of `rams_model`.

mod datagram;
mod laws;

pub use channel_config::Config;
pub(crate) use datagram::{append_order_if, has_plain};
pub use datagram::{append_order, client_of, render_order, renders};
pub use laws::orders_of_answers_render;
pub use ram_io::NoMemory;
pub use rams_model::Order;
