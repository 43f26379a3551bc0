//! What grants bytes.
use crate::link_pool::link::Chair;
use std::marker::Model;

/// The right to grant bytes of a link.
///
/// Contracts see which pool made it, and how many bytes were granted with it.
#[derive(Drop)]
pub struct Ticker {
    pub(crate) seat: Chair,
    pub(crate) total: u64,
}

impl Model for Ticker {
    ghost use Rattle.pool.specs.link_pool.Parties.{Granter, IsTicker};

    ghost Value = { Granter };

    ghost view = { λ t. record { pool = t.seat.table_id; total = t.total } };

    ghost invariant = { λ t. IsTicker t.total t.seat.me };
}

impl Ticker {
    ghost use Rattle.std.specs.Prelude.{◌≡◌};

    /// How many bytes were granted.
    pub fn total(&self) -> u64
        ensures { result ≡ self.now.total }
    {
        self.total
    }
}
