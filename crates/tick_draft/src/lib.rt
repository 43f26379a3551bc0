//! What a tick notes and orders, as it is planned, and what is done for its clients.
#![tactic(auto)]

mod commit;
mod count;
mod draft;
mod drafting;
mod entries;
mod sendings;
mod step;
mod steps;
mod sums;

pub use commit::commit_steps;
pub use count::Count;
pub use draft::Draft;
pub use drafting::Drafting;
pub use entries::{begin_entries, end_entries};
pub use sendings::Sendings;
pub use step::Step;
pub use sums::{Sums, sums_of};
