//! A channel's settings from a session description (SDP, RFC 8866) into its trace, and a description
//! of the channel of a trace.
//!
//! Both read a head of one channel from any source, and write to any sink once all is read.

mod head;
mod laws;
mod reply;
mod rest;
mod said;
pub mod sdp_config;
mod write;

pub use laws::{heads_are_three_lines, settings_are_traces, settings_are_turned_back};
pub use ram_io::{NoMemory, Sink, Source};
pub use rams_model::Status;
pub use trace_loop::Stop;
pub use write::{write_description, write_settings};
