//! A takeover over any source, sink, wire and clock: a standby reads the journal of another server as far
//! as it goes, serves on from there, and writes the journal of both.
//!
//! The words of the contracts stand in `specs/`.

mod following;
pub mod laws;
mod reading;
mod taking;
mod turns;

pub use serve_loop::{Stop, Watch};
pub use taking::take_over;
