//! The text that `meet` writes for a trace, and what holds of the world that the trace is served by.
//!
//! A law is the contract of a function that does nothing, or calls laws that it follows from. Its
//! words stand in `specs/`.

pub mod examples;
pub mod laws;
