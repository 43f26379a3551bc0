//! Runs of commands over sources and sinks in memory: some fail, or move few bytes a call, and input is cut;
//! and the commands `make`, `sdp`, `describe` and `pcap`.
#![tactic(auto)]

#[cfg(test)]
mod faults;
#[cfg(test)]
mod fixtures;
#[cfg(test)]
mod settings;
#[cfg(test)]
mod summaries;
#[cfg(test)]
mod worlds;
