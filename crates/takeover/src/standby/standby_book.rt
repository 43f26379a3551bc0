//! What a standby takes over: the old server's journal and the new one's are one, and so are their
//! datagrams.
//!
//! A law is the contract of a function that does nothing, or calls laws that it follows from. Its words
//! stand in `specs/`.

pub mod laws;
