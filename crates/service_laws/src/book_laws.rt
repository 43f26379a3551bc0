//! Laws of the lawful book of a channel, each for all settings and every list of events.
//!
//! A law is the contract of a function that does nothing. Its words stand in `specs/`.

pub mod budgets;
pub mod join_times;
pub mod numbers;
pub mod one_book;
pub mod refusals;
pub mod sendings;
pub mod stops;
