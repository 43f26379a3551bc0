//! What is delivered to a receiver.
ghost use Rattle.std.specs.Prelude.{◌≡◌, ◌∷◌, [], ◌<◌, ◌≤◌, ◌+◌, ◌^◌, ℕ, IfOk, OnOk, IsSome, IfSome, option_map};
ghost use Rattle.std.specs.Option.{option_to_list};
ghost use Rattle.rams_model.specs.Receiver.{hears, delivers, told_by, told_answer, brought_again, brought_by_multicast, media_answer, after_media, join_answer, join_datagram, reception};
ghost use Rattle.meet_loop.specs.world_laws.World.{Listener};
ghost use Rattle.meet_loop.specs.declared.world_laws.world.WorldItem.TheVariants as item;
ghost use Rattle.receiver_core.specs.{reach, distance_of, with_got};
ghost use Rattle.meet_loop.specs.world_net.{Follows, IsAt, Took, HasFew, first_with};

use crate::world_laws::{WorldItem, WorldNote};
use crate::world_net::parcel::Parcel;
use crate::world_net::posting::post_joined;
use crate::world_net::presenting::present_all;
use crate::world_net::seat::{Seat, first_with};
use crate::world_net::telling::say;
use ram_io::NoMemory;
use receiver_core::{Bump, MediaCame, Receiver};
use std::alloc::Global;

/// A RAMS-I (RFC 6285, 7.3) is delivered to the client's receiver.
pub(crate) fn hear_info<'a>(
    seat: &mut Seat<'a>,
    id: u16,
    client: u64,
    bytes: &[u8],
    notes: &mut Vec<WorldNote<'a>>,
) -> Result<(), NoMemory>
    requires there { IsSome seat.old.receiver }
    ensures takes { (l : Listener) → Follows seat.old l → IsAt id client l
        → OnOk result (Took (item.Info l.tuned.client (told_answer (told_by l.tuned bytes.now) (reception l.turns))) (hears (told_by l.tuned bytes.now) ∷ l.turns) [] l
        notes.old.items notes.new.items [] [] seat.new) }
    ensures few { (n : ℕ) → HasFew n seat.old → HasFew n seat.new }
{
    let Some(receiver) = &mut seat.receiver else {
        unreachable!()
    };
    let came = receiver.info(bytes);
    say(notes, id, WorldItem::Info { client, came })?;
    present_all(receiver, id, client, notes)
}

/// A retransmission (RFC 4588) of the source's packet `x` is delivered to it. Where it is spelled, it is
/// in `room`.
pub(crate) fn hear_again<'a>(
    alloc: Global,
    arena: &'a Bump,
    seat: &mut Seat<'a>,
    id: u16,
    client: u64,
    x: u64,
    parcel: &Parcel<'a>,
    room: &mut Vec<u8>,
    notes: &mut Vec<WorldNote<'a>>,
) -> Result<(), NoMemory>
    requires there { IsSome seat.old.receiver }
    requires few { IfSome seat.old.receiver (λ r. reach r < 2 ^ 40) }
    ensures takes { (l : Listener) → Follows seat.old l → IsAt id client l
        → OnOk result (Took (item.Media l.tuned.client (media_answer (brought_again l.tuned parcel.now.bytes) (reception l.turns))) (delivers x (brought_again l.tuned parcel.now.bytes) ∷ l.turns) [] l
        notes.old.items notes.new.items [] [] seat.new) }
    ensures few { (n : ℕ) → HasFew n seat.old → HasFew (n + 1) seat.new }
{
    let Some(receiver) = &mut seat.receiver else {
        unreachable!()
    };
    let (came, first) = come_again(alloc, arena, receiver, seat.first, x, parcel, room)?;
    seat.first = first;
    say(notes, id, WorldItem::Media { client, came })?;
    present_all(receiver, id, client, notes)
}

// What becomes of a retransmission of the source's packet `x`, and the source's number of the first packet
// then. Once that is fixed, the retransmission of a packet needn't be spelled.
fn come_again<'a>(
    alloc: Global,
    arena: &'a Bump,
    receiver: &mut Receiver<'a>,
    first: Option<u64>,
    x: u64,
    parcel: &Parcel<'a>,
    room: &mut Vec<u8>,
) -> Result<(MediaCame, Option<u64>), NoMemory>
    requires few { reach receiver.old < 2 ^ 40 }
    ensures came { IfOk result (λ r. r.0 ≡ media_answer (brought_again receiver.old.tuned parcel.now.bytes) receiver.old.got) }
    ensures first { IfOk result (λ r. r.1 ≡ first_with first x (distance_of (brought_again receiver.old.tuned parcel.now.bytes) receiver.old.got)) }
    ensures after { OnOk result (receiver.new ≡ with_got (after_media (brought_again receiver.old.tuned parcel.now.bytes) receiver.old.got) receiver.old) }
    ensures few { reach receiver.new ≤ reach receiver.old + 1 }
{
    if first.is_some()
        && let Some(repeat) = parcel.repeat()
    {
        let came = receiver.again(
            alloc,
            arena,
            repeat.packet,
            repeat.payload_type,
            repeat.sequence,
        )?;
        return Ok((came, first));
    }
    parcel.spell(room)?;
    let first = first_after(first, receiver, x, room);
    let came = receiver.rtx(alloc, arena, room)?;
    Ok((came, first))
}

// The source's number of the first packet once a retransmission of its packet `x` comes, which may fix
// it.
fn first_after(first: Option<u64>, receiver: &Receiver<'_>, x: u64, bytes: &[u8]) -> Option<u64>
    ensures { result ≡ first_with first x (distance_of (brought_again receiver.now.tuned bytes.now) receiver.now.got) }
{
    match first {
        Some(_) => first,
        None => first_with(None, x, receiver.distance(bytes)),
    }
}

/// The source's packet `x` is delivered to it by multicast. It may join with it, and posts a RAMS-T
/// (RFC 6285, 7.4) then.
pub(crate) fn hear_multicast<'a>(
    alloc: Global,
    arena: &'a Bump,
    seat: &mut Seat<'a>,
    id: u16,
    client: u64,
    bytes: &'a [u8],
    notes: &mut Vec<WorldNote<'a>>,
    parcels: &mut Vec<Parcel<'a>>,
) -> Result<(), NoMemory>
    requires there { IsSome seat.old.receiver }
    requires few { IfSome seat.old.receiver (λ r. reach r < 2 ^ 40) }
    ensures takes { (l : Listener) (x : ℕ) → Follows seat.old l → IsAt id client l
        → OnOk result (Took (item.Media l.tuned.client (media_answer (brought_by_multicast l.tuned bytes.now) (reception l.turns))) (delivers x (brought_by_multicast l.tuned bytes.now) ∷ l.turns)
        (option_to_list (option_map (join_datagram l.tuned) (join_answer (brought_by_multicast l.tuned bytes.now) (reception l.turns)))) l
        notes.old.items notes.new.items parcels.old.items parcels.new.items seat.new) }
    ensures few { (n : ℕ) → HasFew n seat.old → HasFew (n + 1) seat.new }
{
    let Some(receiver) = &mut seat.receiver else {
        unreachable!()
    };
    let (came, joined) = receiver.multicast(alloc, arena, bytes)?;
    say(notes, id, WorldItem::Media { client, came })?;
    post_joined(arena, id, client, joined, notes, parcels)?;
    present_all(receiver, id, client, notes)
}
