//! Tests of input and output, on public calls alone: `memory_objects` has those of the objects in memory of
//! `ram_io`, `line_pieces` those of `line_io`, over sources and sinks that go in small steps and fail.
#![tactic(auto)]

#[cfg(test)]
mod fixtures;
#[cfg(test)]
mod line_pieces;
#[cfg(test)]
mod memory_objects;
