//! What is granted, tick by tick.
ghost use Rattle.std.specs.Prelude.{◌≡◌, ◌*◌, ◌≤◌};

use crate::link_pool::{Pool, Ticker};

/// Grants so many bytes in each of so many ticks.
pub(crate) fn grant_all(pool: &Pool, mut ticker: Ticker, ticks: u32, rate: u64) -> Ticker
    requires made { ticker.pool ≡ pool.now.pool }
    requires fresh { ticker.total ≡ 0 }
    requires ticks { ticks ≤ 1000000 }
    requires rate { rate ≤ 1000000000 }
    ensures pool { result.pool ≡ pool.now.pool }
    ensures granted { result.total ≡ ticks * rate }
{
    for _tick in 0..ticks {
        pool.grant(&mut ticker, rate);
    }
    ticker
}
