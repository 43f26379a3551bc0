//! The budget of one channel: what its bursts have reserved, and what a tick has left.
//!
//! A share of bytes is for each tick. Bursts and repairs are sent from it; a part, the reserve, is
//! never reserved by bursts, so that repairs have it. What a tick doesn't spend is kept for the next,
//! up to the swell.

mod budget;

pub use budget::Budget;
