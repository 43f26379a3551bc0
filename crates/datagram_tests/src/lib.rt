//! Tests of `order_datagrams`, on its public calls alone.
#![tactic(auto)]

#[cfg(test)]
mod datagrams;
#[cfg(test)]
mod fixtures;
