//! The single steps of a lock, on its two words and its slot.
ghost use Rattle.std.specs.Prelude.{◌≡◌, ℕ, ◌+◌, ◌<◌, ◌≤◌, [], ◌∷◌, length, Some};
ghost use Rattle.channel_book.specs.channel_lock.Steps.{Grew, IsServed, Drawn, PassedOn};
ghost use Rattle.channel_book.specs.{Kept};
ghost use Rattle.atomic_table.specs.Table.{step};
ghost use mathlib.Core.Option.{none};

use crate::channel_lock::turns::{About, Draw, InTurn, Look, PassOn, View};
use crate::{Book, Config};
use atomic_table::{Seat, Shared};
use std::sync::Wait;

/// The word of the next ticket to be drawn.
pub(crate) const TICKETS: usize = 0;

/// The word of the ticket that is served.
const SERVING: usize = 1;

/// The slot of the book.
pub(crate) const BOOK: usize = 0;

/// What the callers of a lock share.
pub(crate) type Turnstile = Shared<Book, View, About, InTurn>;

/// What a caller steps with.
pub(crate) type Chair = Seat<Book, View>;

/// Draws so many tickets, one behind the other: the first of them.
pub(crate) fn draw(shared: &Turnstile, seat: &mut Chair, size: u64) -> u64
    requires table { (seat.old.table_id ≡ shared.now.table_id) × (shared.now.table_id.words ≡ 2) }
    requires free { (seat.old.me.0.ticket ≡ 0) × (seat.old.me.0.size ≡ 0) × (seat.old.me.0.taken ≡ 0) }
    requires may { (size ≤ seat.old.me.0.left) × (0 < length seat.old.me.0.owns) }
    ensures table { seat.new.table_id ≡ seat.old.table_id }
    ensures drawn { Drawn (step shared.now.table_id.slots 0 size 0 none) seat.old.me result seat.new.me }
{
    shared.fetch_add::<Draw>(seat, TICKETS, size)
}

/// Waits until the first of the tickets is served, and takes the book.
pub(crate) fn wait<R: Wait>(
    rt: &R,
    shared: &Turnstile,
    seat: &mut Chair,
    config: &Config,
    ticket: u64,
)
    requires table { (seat.old.table_id ≡ shared.now.table_id) × (shared.now.table_id.words ≡ 2) × (0 < shared.now.table_id.slots) }
    requires ticket { (seat.old.me.0.ticket ≡ ticket + 1) × (0 < seat.old.me.0.size) × (seat.old.me.0.taken ≡ 0) }
    requires config { seat.old.me.0.config ≡ Some config.now }
    ensures table { seat.new.table_id ≡ seat.old.table_id }
    ensures served { IsServed config.now seat.old.me seat.new.me }
{
    for _ in rt.forever() {
        let served = shared.load::<Look>(seat, SERVING);
        if served == ticket {
            return;
        }
        shared.park(rt, SERVING, (served % (1 << 32)) as u32);
    }
    unreachable!()
}

/// Puts the book back and passes the turn on behind the last of so many tickets. Who waits is woken:
/// who draws a ticket later finds the turn passed on.
pub(crate) fn pass_on(shared: &Turnstile, seat: &mut Chair, size: u64)
    requires table { (seat.old.table_id ≡ shared.now.table_id) × (shared.now.table_id.words ≡ 2) × (shared.now.table_id.slots ≡ 1) }
    requires size { seat.old.me.0.size ≡ size }
    requires grew { (book : Kept) × (seat.old.me.1 ≡ (0, book) ∷ []) × (seat.old.me.0.taken ≡ 1) × Grew seat.old.me.0 book }
    ensures table { seat.new.table_id ≡ seat.old.table_id }
    ensures passed { (n : ℕ) × PassedOn (step 1 1 size 0 none) seat.old.me n seat.new.me }
{
    let served = shared.fetch_add::<PassOn>(seat, SERVING, size);
    if shared.peek(TICKETS) > served.saturating_add(size) {
        shared.wake_all(SERVING);
    }
}
