//! The takers of a pool, as they are made and given back.
ghost use Rattle.std.specs.Prelude.{◌≡◌, ℕ, ◌-◌, ◌*◌, ◌^◌, ◌<◌, ◌≤◌, [], All, vec_len, vec_capacity};
ghost use Rattle.pool.specs.link_pool.{fresh_takers};
ghost use Rattle.pool.specs.link_pool.Sharing.{granting};
ghost use Rattle.pool.specs.link_pool.Parties.{IsTicker, HasGathered, Carries};
ghost use Rattle.channel_book.specs.channel_lock.{numbers};

use crate::link_pool::link::{Chair, Deal, GiveBack, Link};
use crate::link_pool::taker::Taker;
use std::alloc::Global;

/// Cuts off a taker for each number.
pub(crate) fn deal(
    alloc: Global,
    link: &Link,
    seat: &mut Chair,
    count: u32,
    mut takers: Vec<Taker>,
) -> Vec<Taker>
    requires table { (seat.old.table_id ≡ link.now.table_id) × (0 < link.now.table_id.words) }
    requires first { seat.old.me ≡ (granting 0 (numbers 0 count) [] (2 ^ 54), []) }
    requires count { count ≤ 64 }
    requires room { (takers.items ≡ []) × (vec_len takers ≡ 0) × (count ≤ vec_capacity takers) }
    ensures table { seat.new.table_id ≡ seat.old.table_id }
    ensures ticker { IsTicker 0 seat.new.me }
    ensures takers { result.items ≡ fresh_takers link.now.table_id count }
{
    for number in 0..count {
        let own = link.split_seat::<Deal>(seat);
        takers.push_reserved(Taker {
            seat: own,
            number,
            claims: Vec::new(alloc),
        });
    }
    takers
}

/// Takes all takers back, to the ticker's seat.
pub(crate) fn gather(link: &Link, mut seat: Chair, takers: Vec<Taker>) -> Chair
    requires table { (seat.table_id ≡ link.now.table_id) × (0 < link.now.table_id.words) }
    requires ticker { IsTicker seat.me.0.granted seat.me }
    requires made { All (λ t. t.pool ≡ link.now.table_id) takers.items }
    ensures table { result.table_id ≡ link.now.table_id }
    ensures gathered { HasGathered seat.me.0.granted takers.items result.me }
    ensures own { All Carries takers.items }
{
    for taker in takers {
        link.join_seat::<GiveBack>(&mut seat, taker.seat);
    }
    seat
}
