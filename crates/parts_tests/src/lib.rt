//! Tests of a channel's parts by hand, on public calls alone: `parts` has those of `channel_parts`, `ticks` of
//! `tick_core`.
#![tactic(auto)]

#[cfg(test)]
mod fixtures;
#[cfg(test)]
mod parts;
#[cfg(test)]
mod ticks;
