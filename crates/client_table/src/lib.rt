//! The known clients of a channel: a finite map from clients to what the server keeps of each.
//!
//! A client is its IPv4 address times 65536, plus its port.
#![tactic(auto)]

mod bursts;
mod due;
mod entry;
mod keys;
mod stored;
mod table;
mod walk;

pub use entry::{AdmitFault, Burst, Entry};
pub use ram_io::NoMemory;
pub use rams_model::Info;
pub use table::Table;
pub use walk::{DueClients, KnownClients, OpenBursts};
