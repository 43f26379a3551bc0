//! The text of a trace, whatever serves it: which lines are taken, what is written for them, and what
//! ends it.
//!
//! A law is the contract of a function that does nothing. Its words stand in `specs/`.

pub mod laws;
