//! What claims bytes.
use crate::link_pool::claim::Claim;
use crate::link_pool::link::Chair;
use std::marker::Model;

/// The right to claim bytes of a link.
///
/// Contracts see which pool made it, its number, and its claims, oldest first.
#[derive(Drop)]
pub struct Taker {
    pub(crate) seat: Chair,
    pub(crate) number: u32,
    pub(crate) claims: Vec<Claim>,
}

impl Model for Taker {
    ghost use Rattle.pool.specs.link_pool.Parties.{Claimer, IsTaker};

    ghost Value = { Claimer };

    ghost view = { λ t. record { pool = t.seat.table_id; number = t.number; claims = t.claims.items } };

    ghost invariant = { λ t. IsTaker t.number t.claims.items t.seat.me };
}

impl Taker {
    ghost use Rattle.std.specs.Prelude.{◌≡◌};

    /// Its number, which its claims carry.
    pub fn number(&self) -> u32
        ensures { result ≡ self.now.number }
    {
        self.number
    }

    /// Its claims, oldest first.
    pub fn claims(&self) -> &[Claim]
        ensures { result.now ≡ self.now.claims }
    {
        &self.claims
    }
}
