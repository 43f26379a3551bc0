//! The pool, and the calls of those who share it.
use crate::link_pool::claim::Claim;
use crate::link_pool::ledger::{Ledger, rising_claims};
use crate::link_pool::link::{CLAIMED, GRANTED, Grant, OneLink, Take, View};
use crate::link_pool::seats::{deal, gather};
use crate::link_pool::taker::Taker;
use crate::link_pool::ticker::Ticker;
use atomic_table::Table;
use ram_io::NoMemory;
use std::alloc::Global;
use std::marker::Model;

/// One link, which a ticker and several takers share.
///
/// Contracts see which pool it is, and how many takers it made.
#[derive(Drop)]
pub struct Pool {
    table: Table<(), View, u64, OneLink, Global>,
    takers: u32,
}

impl Model for Pool {
    ghost use Rattle.pool.specs.link_pool.Parties.{Divided, IsPool};

    ghost Value = { Divided };

    ghost view = { λ p. record { pool = p.table.shared.table_id; takers = p.takers } };

    ghost invariant = { λ p. IsPool p.table.shared.table_id p.table.shared.key p.takers };
}

/// Why a pool isn't closed.
#[derive(Clone, Copy, PartialEq, Eq)]
pub enum PoolFault {
    /// Fewer takers were given back than were made.
    Passes { made: u32, given: u32 },
    /// There is no memory for the ledger.
    NoMemory,
}

impl Pool {
    ghost use Rattle.std.specs.Prelude.{◌≡◌, ℕ, ◌+◌, ◌^◌, ◌<◌, ◌≤◌, ◌⊎◌, [], ◌∷◌, ◌++◌, length, All, IsOk, IfOk, IfErr, OnErr};
    ghost use Rattle.pool.specs.declared.link_pool.pool.PoolFault.TheVariants.{Passes, NoMemory as LacksMemory};
    ghost use Rattle.pool.specs.link_pool.{claim, claimed, claims_of, PaidWithin, Fill, fresh_ticker, fresh_takers, granted_more, NotAmong};

    /// A pool of a link of which nothing is granted or claimed, with its ticker, and a taker for each
    /// number from 0 on.
    pub fn new(alloc: Global, takers: u32) -> Result<(Pool, Ticker, Vec<Taker>), NoMemory>
        requires takers { (0 < takers) × (takers ≤ 64) }
        ensures pool { IfOk result (λ r. r.0.takers ≡ takers) }
        ensures ticker { IfOk result (λ r. r.1 ≡ fresh_ticker r.0.pool) }
        ensures takers { IfOk result (λ r. r.2.items ≡ fresh_takers r.0.pool takers) }
    {
        let seats = Vec::with_capacity(alloc, takers as usize)?;
        let about = u64::from(takers);
        let Ok((table, mut seat)) = Table::of_words(alloc, &[0, 0], &about) else {
            return Err(NoMemory);
        };
        let dealt = deal(alloc, &table.shared, &mut seat, takers, seats);
        let pool = Pool { table, takers };
        let ticker = Ticker { seat, total: 0 };
        Ok((pool, ticker, dealt))
    }

    /// Grants so many bytes more.
    pub fn grant(&self, ticker: &mut Ticker, bytes: u64)
        requires made { ticker.old.pool ≡ self.now.pool }
        requires most { ticker.old.total + bytes ≤ 2 ^ 60 }
        ensures { ticker.new ≡ granted_more ticker.old bytes }
    {
        self.table
            .shared
            .fetch_add::<Grant>(&mut ticker.seat, GRANTED, bytes);
        ticker.total += bytes;
    }

    /// Claims the next bytes of the link, so many: the first of them. After want of memory nothing is
    /// claimed.
    pub fn claim(&self, taker: &mut Taker, bytes: u64) -> Result<u64, NoMemory>
        requires made { taker.old.pool ≡ self.now.pool }
        requires some { 0 < bytes }
        requires most { claimed taker.old.claims + bytes ≤ 2 ^ 48 }
        ensures pool { taker.new.pool ≡ taker.old.pool }
        ensures number { taker.new.number ≡ taker.old.number }
        ensures claimed { IfOk result (λ from. taker.new.claims ≡ taker.old.claims ++ claim taker.old.number from bytes ∷ []) }
        ensures same { OnErr result (taker.new ≡ taker.old) }
    {
        taker.claims.reserve(1)?;
        let from = self
            .table
            .shared
            .fetch_add::<Take>(&mut taker.seat, CLAIMED, bytes);
        taker.claims.push_reserved(Claim {
            taker: taker.number,
            from,
            bytes,
        });
        Ok(from)
    }

    /// The ledger, where all takers are given back and there is memory for it; else all comes back as
    /// it was.
    pub fn close(
        self,
        alloc: Global,
        ticker: Ticker,
        takers: Vec<Taker>,
    ) -> Result<Ledger, (Pool, Ticker, Vec<Taker>, PoolFault)>
        requires ticker { ticker.pool ≡ self.pool }
        requires takers { All (λ t. t.pool ≡ self.pool) takers.items }
        ensures enough { IsOk result → self.takers ≤ length takers.items }
        ensures granted { IfOk result (λ ledger. ledger.granted ≡ ticker.total) }
        ensures fills { IfOk result (λ ledger. Fill ledger.claims.items) }
        ensures most { IfOk result (λ ledger. claimed ledger.claims.items ≤ 2 ^ 54) }
        ensures own { IfOk result (λ ledger. All (λ t. claims_of t.number ledger.claims.items ≡ t.claims) takers.items) }
        ensures others { IfOk result (λ ledger. (number : ℕ) → NotAmong takers.items number → claims_of number ledger.claims.items ≡ []) }
        ensures paid { IfOk result (λ ledger. PaidWithin ledger.granted ledger.claims.items) }
        ensures back { IfErr result (λ r. (r.0 ≡ self) × (r.1 ≡ ticker) × (r.2.items ≡ takers.items)) }
        ensures fault { IfErr result (λ r. ((r.3 ≡ Passes self.takers (length takers.items)) × (length takers.items < self.takers))
            ⊎ ((r.3 ≡ LacksMemory) × (self.takers ≤ length takers.items))) }
    {
        let given = takers.len();
        if given < self.takers as usize {
            let fault = PoolFault::Passes {
                made: self.takers,
                given: given as u32,
            };
            return Err((self, ticker, takers, fault));
        }
        let Ok(claims) = rising_claims(alloc, &takers) else {
            return Err((self, ticker, takers, PoolFault::NoMemory));
        };
        let seat = gather(&self.table.shared, ticker.seat, takers);
        let closed = self.table.close_with(seat);
        let granted = closed.word(GRANTED);
        closed.free();
        Ok(Ledger { granted, claims })
    }
}
