//! Files that stations have, and traces: captures to traces, and session descriptions to the settings of a channel and back.
#![tactic(auto)]

pub mod capture_loop;
pub mod description_loop;
