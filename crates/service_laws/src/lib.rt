//! What is true of every book, of the bytes behind it, of every tick and of every receiver. No code.
#![tactic(auto)]

pub mod book_laws;
pub mod byte_laws;
pub mod receiver_laws;
pub mod tick_laws;
