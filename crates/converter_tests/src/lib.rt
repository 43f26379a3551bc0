//! Tests of captures and of session descriptions, on public calls alone. Expected values are worked out by hand
//! from the RFCs and the documents; some bytes are as tcpdump and ffmpeg wrote them.
//!
//! `files`, `frames` and `ticks` have those of `pcap_trace`, `captures` and `watched` of `capture_loop`;
//! `descriptions` those of `sdp_config`, `settings` of `description_loop`.
#![tactic(auto)]

#[cfg(test)]
mod captures;
#[cfg(test)]
mod descriptions;
#[cfg(test)]
mod files;
#[cfg(test)]
mod fixtures;
#[cfg(test)]
mod frames;
#[cfg(test)]
mod settings;
#[cfg(test)]
mod ticks;
#[cfg(test)]
mod watched;
