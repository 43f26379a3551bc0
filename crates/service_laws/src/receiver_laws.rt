//! Laws of a receiver over a fixed source, each for whatever comes to it, in whatever order.
//!
//! A law is the contract of a function that does nothing. Its words stand in `specs/`.

mod presenting;

pub use presenting::{
    a_handover_is_fair, presenting_ends, what_is_delivered_is_presented,
    what_is_presented_is_a_prefix,
};
