//! What a caller steps the lock with.
use crate::channel_lock::turns::View;
use crate::{Book, Config};
use atomic_table::Seat;
use std::marker::Model;

/// The right to make the calls of one list.
///
/// Contracts see which lock made it, the settings, the list, the history as its caller has seen it, and
/// how many calls are left: one fewer with each ticket that it draws.
#[derive(Drop)]
pub struct Pass {
    pub(crate) seat: Seat<Book, View>,
    pub(crate) config: Config,
    pub(crate) list: u16,
    pub(crate) seen: u64,
}

impl Model for Pass {
    ghost use Rattle.std.specs.Prelude.{◌≡◌, length};
    ghost use Rattle.channel_book.specs.channel_lock.Passes.{Known, IsAtRest};

    ghost Value = { Known };

    ghost view = { λ p. record { lock = p.seat.table_id; settings = p.config; list = p.list; seen = p.seat.me.0.log; left = p.seat.me.0.left } };

    ghost invariant = { λ p. IsAtRest p.config p.list p.seen p.seat.me };
}

impl Pass {
    ghost use Rattle.std.specs.Prelude.{◌≡◌, length};
    ghost use Rattle.channel_book.specs.{IsLegal};

    /// How many entries of the history its caller has seen.
    pub fn seen(&self) -> u64
        ensures count { result ≡ length self.now.seen }
        ensures legal { IsLegal self.now.settings self.now.seen }
    {
        self.seen
    }
}
