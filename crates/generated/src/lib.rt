//! Traces that are made from a seed, and what becomes of them in numbers.
#![tactic(auto)]

pub mod generated_run;
pub mod summary;
pub mod trace_gen;
