//! Tests of channels that share a link, on public calls alone.
//!
//! `fixtures` has a channel's settings and what comes to it.
#![tactic(auto)]

#[cfg(test)]
mod fixtures;
// pool_run
#[cfg(test)]
mod lanes;
// link_pool
#[cfg(test)]
mod links;
// pool_loop
#[cfg(test)]
mod traces;
