//! Laws of a tick in every book: that it sends all that it may, and whom it serves first.
//!
//! A law is the contract of a function that does nothing. Its words stand in `specs/`.

pub mod forgets;
pub mod order;
pub mod sends;
