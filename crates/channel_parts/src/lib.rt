//! The parts of a channel, and the history that they stand for.
//!
//! What a channel keeps between events is in five parts: its settings, the live packets, the known
//! clients, the pending repairs, and the budget. `StandsFor` says what they are after some events, by
//! the definitions of a channel's history; the laws say what is true of each such history, so that
//! calls on the parts are safe.
#![tactic(auto)]

mod laws;
mod parts;
pub mod response;
mod stop;

pub use channel_cache::{Cache, Choice};
pub use channel_config::{Channel, Config};
pub use client_table::{AdmitFault, Burst, Entry, Info, Table};
pub use laws::{
    budgets_are_within_the_share, clients_stand_once, known_clients_are_idle_for_less,
    notes_reserve, numbers_are_small, only_known_clients_have_bursts,
    open_bursts_are_within_bounds, parts_are_in_bounds, parts_go_on, repairs_are_of_known_clients,
};
pub use parts::Parts;
pub use ram_io::NoMemory;
pub use rams_model::Held;
pub use reckoning::link_budget::Budget;
pub use repair_queue::{Asked, Piece, Queue, Wanted};
pub use stop::is_before_stop;
