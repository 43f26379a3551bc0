//! The passes of a lock, as they are made and given back.
ghost use Rattle.std.specs.Prelude.{◌≡◌, ℕ, ◌^◌, ◌<◌, ◌≤◌, [], All, vec_len, vec_capacity};
ghost use Rattle.channel_book.specs.channel_lock.{fresh, numbers};
ghost use Rattle.channel_book.specs.channel_lock.Turns.{dealing, gathering};
ghost use Rattle.channel_book.specs.channel_lock.Passes.{pasts_of};

use crate::Config;
use crate::channel_lock::pass::Pass;
use crate::channel_lock::steps::{Chair, TICKETS, Turnstile};
use crate::channel_lock::turns::{Deal, GiveBack, Sit};

/// Cuts off a pass for each list.
pub(crate) fn deal(
    shared: &Turnstile,
    mut seat: Chair,
    config: &Config,
    seats: u32,
    mut passes: Vec<Pass>,
) -> Vec<Pass>
    requires table { (seat.table_id ≡ shared.now.table_id) × (0 < shared.now.table_id.words) }
    requires first { seat.me ≡ (dealing config.now (numbers 0 seats) (2 ^ 40), []) }
    requires seats { seats ≤ 32 }
    requires room { (passes.items ≡ []) × (vec_len passes ≡ 0) × (seats ≤ vec_capacity passes) }
    ensures { result.items ≡ fresh shared.now.table_id config.now seats }
{
    for list in 0..seats {
        let own = shared.split_seat::<Deal>(&mut seat);
        passes.push_reserved(Pass {
            seat: own,
            config: *config,
            list: list as u16,
            seen: 0,
        });
    }
    passes
}

/// Takes all passes back.
pub(crate) fn gather(shared: &Turnstile, passes: Vec<Pass>) -> Chair
    requires table { 0 < shared.now.table_id.words }
    requires made { All (λ p. p.lock ≡ shared.now.table_id) passes.items }
    ensures table { result.table_id ≡ shared.now.table_id }
    ensures gathered { (left : ℕ) × (result.me ≡ (gathering (pasts_of passes.items) left, [])) }
{
    let (_, mut seat) = shared.load_new_seat::<Sit>(TICKETS);
    for pass in passes {
        shared.join_seat::<GiveBack>(&mut seat, pass.seat);
    }
    seat
}
