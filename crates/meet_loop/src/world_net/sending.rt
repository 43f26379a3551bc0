//! The datagrams that a channel sends.
ghost use Rattle.std.specs.Prelude.{◌≡◌, ◌++◌, map, OnOk};
ghost use Rattle.meet_loop.specs.world_net.{sent_of};

use crate::world_net::parcel::Parcel;
use book_text::order_datagrams::Config;
use ram_io::NoMemory;
use rams_model::Order;
use receiver_core::Bump;
use std::alloc::Global;

/// Adds the datagrams of orders.
pub(crate) fn send_orders<'a>(
    alloc: Global,
    arena: &'a Bump,
    config: &Config,
    orders: Vec<Order>,
    parcels: &mut Vec<Parcel<'a>>,
) -> Result<(), NoMemory>
    ensures { OnOk result (parcels.new.items ≡ parcels.old.items ++ map (sent_of config.now) orders.items) }
{
    for order in orders {
        parcels.push(Parcel::ordered(alloc, arena, config, order)?)?;
    }
    Ok(())
}
