//! Tests of the receiver, on its public calls alone. Expected values are worked out by hand from the
//! RFCs and the documents.
//!
//! `row` says what a row of a table is, and runs it; `receptions` has the tables.
#![tactic(auto)]

#[cfg(test)]
mod receptions;
#[cfg(test)]
mod row;
