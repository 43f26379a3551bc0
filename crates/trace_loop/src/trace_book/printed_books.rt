//! What `run` prints for the events of a trace: the lines of its channels' one books.
//!
//! The words stand in `specs/`.

pub mod laws;
