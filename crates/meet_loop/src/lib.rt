//! The command `meet`: from the bytes of a world's trace to the bytes of its text.
#![tactic(auto)]

mod event;
mod meeting;
mod text;
pub mod world_book;
pub mod world_laws;
pub mod world_net;
pub mod world_text;
mod writer;

pub use ram_io::{NoMemory, Sink, Source};
pub use rams_model::Status;
pub use text::write_world;
pub use trace_loop::Stop;
