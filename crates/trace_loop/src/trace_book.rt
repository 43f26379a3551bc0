//! The book of a trace: the text that `run` writes for it, and what holds of its channels.
//!
//! A law is the contract of a function that does nothing, or calls laws that it follows from. Its
//! words stand in `specs/`.

pub mod examples;
pub mod laws;
pub mod printed_books;
pub mod trace_serving;
