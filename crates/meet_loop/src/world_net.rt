//! Worlds: a server's channels, the datagrams that were sent, and the receivers that they are
//! delivered to, in any order and any number of times.
//!
//! It opens no socket and reads no clock: what happens is handed in, event by event.

mod asking;
mod delivering;
mod hearing;
mod lending;
mod packets;
mod parcel;
mod parts;
mod places;
mod posting;
mod presenting;
mod runs;
mod seat;
mod sending;
mod serving;
mod telling;
mod tuning;
mod world;

pub use crate::world_laws::{WorldEvent, WorldItem, WorldNote};
pub use ram_io::NoMemory;
pub use server_hub::{AddFault, Config, Hub, HubEvent};
pub use world::World;
