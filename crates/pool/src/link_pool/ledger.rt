//! The claims of all takers.
ghost use Rattle.std.specs.Prelude.{◌≡◌, flat_map, IfOk};
ghost use Rattle.std.specs.List.Sorted.{IsPermutation, IsNonDecreasingBy};
ghost use Rattle.pool.specs.link_pool.{claims_given};

use crate::link_pool::claim::Claim;
use crate::link_pool::taker::Taker;
use ram_io::NoMemory;
use std::alloc::Global;

/// What became of a link.
#[derive(Drop)]
pub struct Ledger {
    /// The bytes that were granted.
    pub granted: u64,
    /// All claims, by rising first byte.
    pub claims: Vec<Claim>,
}

/// The claims of all takers, one taker after the other.
fn claims_of_all(alloc: Global, takers: &[Taker]) -> Result<Vec<Claim>, NoMemory>
    ensures { IfOk result (λ all. all.items ≡ claims_given takers.now) }
{
    let mut all = Vec::new(alloc);
    for taker in takers {
        all.extend_from_slice(&taker.claims)?;
    }
    Ok(all)
}

/// The same, by rising first byte.
pub(crate) fn rising_claims(alloc: Global, takers: &[Taker]) -> Result<Vec<Claim>, NoMemory>
    ensures all { IfOk result (λ all. IsPermutation (claims_given takers.now) all.items) }
    ensures rising { IfOk result (λ all. IsNonDecreasingBy (λ c. c.from) all.items) }
{
    let mut claims = claims_of_all(alloc, takers)?;
    claims.sort_by_key(|claim| claim.from)?;
    Ok(claims)
}
