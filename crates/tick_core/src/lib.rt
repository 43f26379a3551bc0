//! A tick of a channel: what it sends, whom it forgets, and what its parts are after it.
#![tactic(auto)]

mod allowance;
mod allowances;
mod commit;
mod forgetting;
mod holding;
mod plan;
mod repairs;
mod runs;

pub use channel_parts::Parts;
pub use commit::commit_tick;
pub use plan::{TickPlan, TickWork, plan_tick, plan_work};
pub use ram_io::NoMemory;
pub use rams_model::{Answer, Note, Order};
pub use tick_draft::{Sendings, Step, Sums, sums_of};
