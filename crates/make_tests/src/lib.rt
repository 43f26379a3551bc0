//! Generated traces and their summaries, by public calls.
#![tactic(auto)]

#[cfg(test)]
mod generated_events;
#[cfg(test)]
mod summaries;
