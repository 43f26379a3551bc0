//! The datagrams of answers, to the wire.
ghost use Rattle.std.specs.Prelude.{◌≡◌, ◌+◌, ◌*◌, ◌<◌, ◌^◌, ◌∷◌, ℕ, List, [], OnOk, length};
ghost use Rattle.ram_io.specs.{Outgoing};
ghost use Rattle.server_hub.specs.{settings_of};
ghost use Rattle.serve_loop.specs.{Sends, IsStoppedByWire, OnlyMemoryStops, bytes_of, order_datagrams, at_datagrams, said_datagrams};

use book_text::order_datagrams::{Config, append_order, client_of};
use ram_io::Wire;
use rams_model::Order;
use server_hub::{At, Hub};
use trace_loop::Stop;

/// Sends the datagram of an order, which is made in `room`, from this port.
fn send_order<W: Wire>(
    wire: &mut W,
    room: &mut Vec<u8>,
    config: &Config,
    port: u16,
    order: &Order,
) -> Result<(), Stop>
    ensures all { OnOk result (Sends (W.sent wire.old) (W.sent wire.new) (order_datagrams config.now port (order.now ∷ [])) []) }
    ensures front { (rest : List Outgoing) × Sends (W.sent wire.old) (W.sent wire.new) (order_datagrams config.now port (order.now ∷ [])) rest }
    ensures untaken { W.arrivals wire.new ≡ W.arrivals wire.old }
    ensures cause { IsStoppedByWire (W.faults wire.old) (W.faults wire.new) result }
    ensures steady { (bytes count : ℕ) → W.is_steady wire.old (bytes_of (order_datagrams config.now port (order.now ∷ [])) + bytes) (length (order_datagrams config.now port (order.now ∷ [])) + count)
        → OnlyMemoryStops result (W.is_steady wire.new bytes count) }
{
    room.clear();
    append_order(room, config, order)?;
    match wire.send(client_of(order), port, room) {
        Ok(()) => Ok(()),
        Err(_) => Err(Stop::Wire),
    }
}

/// Sends the datagrams of these orders, one after another. Where the wire fails or memory runs out, a
/// front of them has gone.
pub fn send_orders<W: Wire>(
    wire: &mut W,
    room: &mut Vec<u8>,
    config: &Config,
    port: u16,
    orders: &[Order],
) -> Result<(), Stop>
    ensures all { OnOk result (Sends (W.sent wire.old) (W.sent wire.new) (order_datagrams config.now port orders.now) []) }
    ensures front { (rest : List Outgoing) × Sends (W.sent wire.old) (W.sent wire.new) (order_datagrams config.now port orders.now) rest }
    ensures untaken { W.arrivals wire.new ≡ W.arrivals wire.old }
    ensures cause { IsStoppedByWire (W.faults wire.old) (W.faults wire.new) result }
    ensures steady { (bytes count : ℕ) → W.is_steady wire.old (bytes_of (order_datagrams config.now port orders.now) + bytes) (length (order_datagrams config.now port orders.now) + count)
        → OnlyMemoryStops result (W.is_steady wire.new bytes count) }
{
    for order in orders.iter() {
        send_order(wire, room, config, port, order)?;
    }
    Ok(())
}

/// Sends the datagrams of what one channel answers, from its feedback port.
fn send_at<W: Wire>(
    wire: &mut W,
    room: &mut Vec<u8>,
    hub: &Hub,
    port: u16,
    at: &At,
) -> Result<(), Stop>
    ensures all { OnOk result (Sends (W.sent wire.old) (W.sent wire.new) (at_datagrams port (settings_of hub.now) at.now) []) }
    ensures front { (rest : List Outgoing) × Sends (W.sent wire.old) (W.sent wire.new) (at_datagrams port (settings_of hub.now) at.now) rest }
    ensures untaken { W.arrivals wire.new ≡ W.arrivals wire.old }
    ensures cause { IsStoppedByWire (W.faults wire.old) (W.faults wire.new) result }
    ensures steady { (bytes count : ℕ) → W.is_steady wire.old (bytes_of (at_datagrams port (settings_of hub.now) at.now) + bytes) (length (at_datagrams port (settings_of hub.now) at.now) + count)
        → OnlyMemoryStops result (W.is_steady wire.new bytes count) }
{
    match hub.config(at.id) {
        Some(config) => send_orders(wire, room, config, port, &at.answer.orders),
        None => Ok(()),
    }
}

/// Sends the datagrams of what these channels answer, one after another: the first of them from this
/// feedback port, and each from the one two above that of the channel in front of it.
pub fn send_all<W: Wire>(
    wire: &mut W,
    room: &mut Vec<u8>,
    hub: &Hub,
    first: u16,
    all: &[At],
) -> Result<(), Stop>
    requires { first + 2 * length all.now < 2 ^ 16 }
    ensures all { OnOk result (Sends (W.sent wire.old) (W.sent wire.new) (said_datagrams first (settings_of hub.now) all.now) []) }
    ensures front { (rest : List Outgoing) × Sends (W.sent wire.old) (W.sent wire.new) (said_datagrams first (settings_of hub.now) all.now) rest }
    ensures untaken { W.arrivals wire.new ≡ W.arrivals wire.old }
    ensures cause { IsStoppedByWire (W.faults wire.old) (W.faults wire.new) result }
    ensures steady { (bytes count : ℕ) → W.is_steady wire.old (bytes_of (said_datagrams first (settings_of hub.now) all.now) + bytes) (length (said_datagrams first (settings_of hub.now) all.now) + count)
        → OnlyMemoryStops result (W.is_steady wire.new bytes count) }
{
    let mut port = first;
    for at in all.iter() {
        send_at(wire, room, hub, port, at)?;
        port += 2;
    }
    Ok(())
}
