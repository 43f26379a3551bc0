//! What the program reads from and writes to, as traits whose clauses say what a call did.
//!
//! Each trait but `Clock` and `Gate` counts its faults, and answers `Failed` only where that count
//! rose in the call. What an object has left or holds is told by the objects in memory, and by the
//! real ones where their reader or writer tells it: the clauses on content hold where it is told.
#![tactic(auto)]

mod calls;
mod clock;
mod copy;
mod failed;
mod gate;
mod mem_clock;
mod mem_sink;
mod mem_source;
mod mem_wire;
mod sink;
mod source;
mod std_clock;
mod std_edge;
mod wire;

pub use clock::Clock;
pub use failed::{Failed, NoMemory};
pub use gate::{Gate, Open};
pub use mem_clock::MemClock;
pub use mem_sink::MemSink;
pub use mem_source::MemSource;
pub use mem_wire::{MemWire, Sent};
pub use rams_model::Octets;
pub use sink::Sink;
pub use source::Source;
pub use std_clock::StdClock;
pub use std_edge::{StdSink, StdSource};
pub use wire::{Arrival, Incoming, Wire};
