//! What is claimed for the orders of an answer.
ghost use Rattle.std.specs.Prelude.{◌≡◌, ◌<◌, ◌≤◌, ◌∷◌, [], ◌++◌, All, map, OnOk};
ghost use Rattle.server_hub.specs.session_core.{IsShort, SendsShort};
ghost use Rattle.pool.specs.link_pool.{bytes_of};
ghost use Rattle.rams_model.specs.Service.{wire_sizes};
ghost use Rattle.pool.specs.pool_run.{AreSmall};

use crate::link_pool::{NoMemory, Pool, Taker};
use rams_model::{Answer, MOST_ON_WIRE, Order, RTX_OVERHEAD};

/// The most claims for which there can be memory: 2^37 of them take over three terabytes.
const MOST_CLAIMS: usize = 1 << 37;

/// Claims the size of one packet.
fn claim_packet(pool: &Pool, taker: &mut Taker, bytes: u64) -> Result<(), NoMemory>
    requires made { taker.old.pool ≡ pool.now.pool }
    requires bytes { (0 < bytes) × (bytes ≤ MOST_ON_WIRE) }
    requires small { AreSmall taker.old.claims }
    ensures pool { taker.new.pool ≡ taker.old.pool }
    ensures number { taker.new.number ≡ taker.old.number }
    ensures claimed { OnOk result (map bytes_of taker.new.claims ≡ map bytes_of taker.old.claims ++ bytes ∷ []) }
    ensures small { OnOk result (AreSmall taker.new.claims) }
{
    if taker.claims().len() > MOST_CLAIMS {
        return Err(NoMemory);
    }
    pool.claim(taker, bytes)?;
    Ok(())
}

/// Claims the wire size of the packet that an order sends again.
fn claim_order(pool: &Pool, taker: &mut Taker, order: &Order) -> Result<(), NoMemory>
    requires made { taker.old.pool ≡ pool.now.pool }
    requires short { IsShort order.now }
    requires small { AreSmall taker.old.claims }
    ensures pool { taker.new.pool ≡ taker.old.pool }
    ensures number { taker.new.number ≡ taker.old.number }
    ensures claimed { OnOk result (map bytes_of taker.new.claims ≡ map bytes_of taker.old.claims ++ wire_sizes (order.now ∷ [])) }
    ensures small { OnOk result (AreSmall taker.new.claims) }
{
    match order {
        Order::Rtx { packet, .. } => {
            claim_packet(pool, taker, packet.len() as u64 + u64::from(RTX_OVERHEAD))
        }
        Order::Info { .. } => Ok(()),
    }
}

/// Claims the wire size of each packet that an answer sends again, in the order of its orders.
pub(crate) fn claim_answer(pool: &Pool, taker: &mut Taker, answer: &Answer) -> Result<(), NoMemory>
    requires made { taker.old.pool ≡ pool.now.pool }
    requires short { SendsShort answer.now }
    requires small { AreSmall taker.old.claims }
    ensures pool { taker.new.pool ≡ taker.old.pool }
    ensures number { taker.new.number ≡ taker.old.number }
    ensures claimed { OnOk result (map bytes_of taker.new.claims ≡ map bytes_of taker.old.claims ++ wire_sizes answer.now.orders) }
    ensures small { OnOk result (AreSmall taker.new.claims) }
{
    claim_orders(pool, taker, &answer.orders)
}

/// The same for some orders.
fn claim_orders(pool: &Pool, taker: &mut Taker, orders: &[Order]) -> Result<(), NoMemory>
    requires made { taker.old.pool ≡ pool.now.pool }
    requires short { All IsShort orders.now }
    requires small { AreSmall taker.old.claims }
    ensures pool { taker.new.pool ≡ taker.old.pool }
    ensures number { taker.new.number ≡ taker.old.number }
    ensures claimed { OnOk result (map bytes_of taker.new.claims ≡ map bytes_of taker.old.claims ++ wire_sizes orders.now) }
    ensures small { OnOk result (AreSmall taker.new.claims) }
{
    for order in orders {
        claim_order(pool, taker, order)?;
    }
    Ok(())
}
