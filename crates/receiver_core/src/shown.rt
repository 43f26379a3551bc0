//! What a receiver presents.
use crate::lent::Lent;

/// A packet that a receiver presents.
#[derive(Drop)]
pub struct Shown<'a> {
    /// The receiver's number of it.
    pub n: u64,
    /// The packet, without its padding.
    pub packet: Lent<'a>,
}
