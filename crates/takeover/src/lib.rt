//! A standby that follows a server's journal, and a takeover: a server over a wire that goes on where the
//! journal of another one ends.
#![tactic(auto)]

pub mod standby;
pub mod takeover_loop;
