//! What tests of several crates begin from.
#![tactic(auto)]

pub mod test_calls;
pub mod test_channel;
pub mod test_gates;
pub mod test_words;
