//! The plan of a burst: its rate, the time until it has caught up with the multicast, and the packet
//! before which it stops (RFC 6285, 6.2 and 7).
//!
//! `laws` says why a burst keeps the join time that its client is told.

mod laws;
mod rate;
mod stop;

pub use laws::{
    catching_up_ends, five_packets_in_three_ticks, join_times_are_kept, quiet_bursts_catch_up,
};
pub use rate::{bits_of, join_ticks, rate_of};
pub use stop::stop_of;
