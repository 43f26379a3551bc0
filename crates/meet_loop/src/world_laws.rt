//! Worlds: a server's channels, the datagrams that were sent, and receivers that get any of them, in
//! any order and any number of times.
//!
//! What becomes of each event stands in `specs/`. A law is the contract of a function that does
//! nothing.

pub mod channels;
pub mod laws;
pub mod rows;
mod sent_bytes;
mod world;

pub use rams_model::{InfoCame, MediaCame, Note};
pub use sent_bytes::{Repeat, SentBytes};
pub use server_hub::HubEvent;
pub use world::{WorldEvent, WorldItem, WorldNote};
