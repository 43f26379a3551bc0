//! The journal that a server over a wire writes of what came to it: a trace, whose replay has exactly
//! the datagrams that the server sent.
//!
//! A law is the contract of a function that does nothing, or calls laws that it follows from. Its
//! words stand in `specs/`.

pub mod event_text;
pub mod examples;
pub mod laws;
