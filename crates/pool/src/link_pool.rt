//! One link of so many bytes per tick, which several channels share, each on a thread of its own.
//!
//! A ticker grants bytes, and takers claim them. A claim takes the next bytes of the link, counted from
//! the first that was ever claimed; it is paid where the grants reach to its end. Whoever claims beside
//! whom, the claims of all takers fill the link without gap or overlap.

mod claim;
mod ledger;
mod link;
mod pool;
mod seats;
mod taker;
mod ticker;

pub use claim::Claim;
pub use ledger::Ledger;
pub use pool::{Pool, PoolFault};
pub use ram_io::NoMemory;
pub use taker::Taker;
pub use ticker::Ticker;
