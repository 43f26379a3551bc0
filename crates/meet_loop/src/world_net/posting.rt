//! The datagrams that receivers post.
ghost use Rattle.std.specs.Prelude.{◌≡◌, ◌∷◌, [], ◌++◌, OnOk, map, option_map};
ghost use Rattle.std.specs.Option.{option_to_list};
ghost use Rattle.meet_loop.specs.world_net.{post_at, posted_at};

use crate::world_laws::{WorldItem, WorldNote};
use crate::world_net::parcel::{Parcel, make_room};
use crate::world_net::telling::say;
use ram_io::NoMemory;
use rams_model::Octets;
use receiver_core::{Bump, Lent};

/// Adds a datagram that a client's receiver posts, and what is said of it.
pub(crate) fn post<'a>(
    arena: &'a Bump,
    id: u16,
    client: u64,
    datagram: &[u8],
    notes: &mut Vec<WorldNote<'a>>,
    parcels: &mut Vec<Parcel<'a>>,
) -> Result<(), NoMemory>
    ensures notes { OnOk result (notes.new.items ≡ notes.old.items ++ post_at id client datagram.now ∷ []) }
    ensures parcels { OnOk result (parcels.new.items ≡ parcels.old.items ++ posted_at id client datagram.now ∷ []) }
{
    let lent = Lent::copied(arena, datagram)?;
    let bytes = lent.as_slice();
    let item = WorldItem::Post {
        client,
        bytes: lent,
    };
    say(notes, id, item)?;
    make_room(parcels);
    parcels.push(Parcel::posted(id, client, bytes))?;
    Ok(())
}

/// The same, where it posts one.
pub(crate) fn post_joined<'a>(
    arena: &'a Bump,
    id: u16,
    client: u64,
    datagram: Option<Vec<u8>>,
    notes: &mut Vec<WorldNote<'a>>,
    parcels: &mut Vec<Parcel<'a>>,
) -> Result<(), NoMemory>
    ensures notes { OnOk result (notes.new.items ≡ notes.old.items ++ map (post_at id client) (option_to_list (option_map (λ v. v.items) datagram))) }
    ensures parcels { OnOk result (parcels.new.items ≡ parcels.old.items ++ map (posted_at id client) (option_to_list (option_map (λ v. v.items) datagram))) }
{
    match datagram {
        Some(datagram) => post(arena, id, client, &datagram, notes, parcels),
        None => Ok(()),
    }
}

/// The same of several, in their order.
pub(crate) fn post_all<'a>(
    arena: &'a Bump,
    id: u16,
    client: u64,
    datagrams: Vec<Octets>,
    notes: &mut Vec<WorldNote<'a>>,
    parcels: &mut Vec<Parcel<'a>>,
) -> Result<(), NoMemory>
    ensures notes { OnOk result (notes.new.items ≡ notes.old.items ++ map (post_at id client) datagrams.items) }
    ensures parcels { OnOk result (parcels.new.items ≡ parcels.old.items ++ map (posted_at id client) datagrams.items) }
{
    for datagram in datagrams {
        post(arena, id, client, datagram.bytes(), notes, parcels)?;
    }
    Ok(())
}
