//! The wire over UDP. With the adapters of `ram_io` over std it is the edge of the program: what a
//! socket gives, and whether a datagram arrives, no clause can say.
#![tactic(auto)]

mod address;
mod bind_fault;
mod failed_wire;
mod faults;
mod round;
mod sockets;
mod udp_wire;

pub use bind_fault::BindFault;
pub use failed_wire::FailedWire;
pub use udp_wire::{UdpWire, busy_port};
