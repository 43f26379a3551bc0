//! Tests of the crates of texts and of settings, on their public calls alone: lines as they are read and
//! written, and each fault at its edge. Expected values are worked out by hand from the documents.
//!
//! `digits` has the tests of `hex_text`, `settings` of `channel_config`, `book_lines` of `book_text`, and the
//! others of `trace_lines` and `trace_text`, as tables where like cases are many.
#![tactic(auto)]

#[cfg(test)]
mod book_lines;
#[cfg(test)]
mod digits;
#[cfg(test)]
mod fixtures;
#[cfg(test)]
mod settings;
#[cfg(test)]
mod trace_channels;
#[cfg(test)]
mod trace_kinds;
#[cfg(test)]
mod trace_orders;
#[cfg(test)]
mod trace_words;
