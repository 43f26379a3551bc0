//! Numbers that are named by their low 16 bits.
ghost use Rattle.std.specs.Prelude.{◌≡◌, ℕ, ◌+◌, ◌-◌, ◌^◌, ◌<◌, ◌≤◌, IfSome, IfNone};
ghost use Rattle.rams_model.specs.Packets.{least_from};
ghost use Rattle.reckoning.specs.ext_seq.{IsLeastFrom, IsResolved};

use crate::ext_seq::distance::ahead;

/// The only number from `lo` on and below `hi` that has these low 16 bits. The interval has at most
/// 65,536 numbers.
pub fn resolve_in(lo: u64, hi: u64, low: u16) -> Option<u64>
    requires ordered { lo ≤ hi }
    requires short { hi - lo ≤ 65536 }
    ensures found { IfSome result (λ n. IsResolved lo hi low n) }
    ensures only { IfSome result (λ n. (m : ℕ) → IsResolved lo hi low m → m ≡ n) }
    ensures none { IfNone result ((n : ℕ) → IsResolved lo hi low n → ⊥) }
{
    let ahead = ahead(low, lo);
    if ahead < hi - lo {
        Some(lo + ahead)
    } else {
        None
    }
}

/// The least number from `first` on that has these low 16 bits.
pub fn least_from(first: u64, low: u16) -> u64
    requires { first < 2 ^ 63 }
    ensures number { result ≡ least_from first low }
    ensures least { IsLeastFrom first low result }
{
    first + ahead(low, first)
}
