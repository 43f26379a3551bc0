//! Laws of every book, said of bytes: what a client is told by the datagrams that it gets, and what is
//! held of the packets that came.
//!
//! A law is the contract of a function that does nothing. Its words stand in `specs/`. They name bytes by
//! their places, as the RFCs do, and not by what reads or writes them.

pub mod held;
pub mod live;
pub mod messages;
pub mod told;
