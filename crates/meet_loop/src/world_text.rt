//! The lines of a world, each appended to a given text.
//!
//! A call appends its whole line, or nothing where memory runs out.

mod line;
pub mod rows;

pub use crate::world_laws::{WorldItem, WorldNote};
pub use line::{append_world_note, append_world_part};
pub use ram_io::NoMemory;
