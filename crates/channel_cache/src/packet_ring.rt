//! The last packets of a channel's source, under consecutive numbers.

mod laws;
mod ring;

pub use laws::{held_ends_as_its_source, packets_stand_in_order};
pub use ram_io::NoMemory;
pub use rams_model::Held;
pub use ring::Ring;
