//! The text of a shared link's ledger: a line for each claim, and one for the link.

mod lines;

pub use crate::link_pool::{Claim, Ledger};
pub use lines::{append_claim, append_ledger};
pub use ram_io::NoMemory;
