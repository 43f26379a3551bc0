//! Tests of the lock of one channel by hand, and of its lists on threads, on public calls alone.
//!
//! `fixtures` has a channel's settings and what comes to it.
#![tactic(auto)]

#[cfg(test)]
mod fixtures;
// session_worker, live_writer
#[cfg(test)]
mod lists;
// channel_lock
#[cfg(test)]
mod locks;
