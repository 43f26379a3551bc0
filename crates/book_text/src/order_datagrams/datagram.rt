//! The datagrams that orders ask for.
ghost use Rattle.std.specs.Prelude.{◌≡◌, true, ◌<◌, ◌++◌, ◌↔◌, ◌+◌, IsOk, IsTrue, IfOk, OnOk, OnErr, length, vec_len, vec_capacity};
ghost use Rattle.rams_model.specs.Service.{client_of, datagram, sent_again};
ghost use Rattle.rams_model.specs.Formats.{packet_at};
ghost use Rattle.book_text.specs.order_datagrams.{Renders, has_plain, IsRetransmission};

use channel_config::Config;
use ram_io::NoMemory;
use rams_model::Order;
use std::alloc::Global;
use wire_packets::rams_tlv::append_info;
use wire_packets::rtp_record::Rtp;
use wire_packets::rtx_payload::{append_plain, append_rtx, is_plain};

/// Whom an order is for.
pub fn client_of(order: &Order) -> u64
    ensures { result ≡ client_of order.now }
{
    match order {
        Order::Rtx { client, .. } | Order::Info { client, .. } => *client,
    }
}

/// The datagram of an order; empty where the packet of a retransmission doesn't read as one, as each
/// does that a channel holds.
pub fn render_order(alloc: Global, config: &Config, order: &Order) -> Result<Vec<u8>, NoMemory>
    ensures { IfOk result (λ bytes. bytes.items ≡ datagram config.now order.now) }
{
    let mut text = Vec::new(alloc);
    append_order(&mut text, config, order)?;
    Ok(text)
}

/// `render_order`, behind what is there: a retransmission packet (RFC 4588, 4), or a RAMS-I (RFC
/// 6285, 7.3); nothing where a packet doesn't read as one. An error changes nothing, and comes only
/// where the vector lacks the room.
#[tactic(auto, unfolding(rams_model::specs::Service::Orders::datagram))]
pub fn append_order(text: &mut Vec<u8>, config: &Config, order: &Order) -> Result<(), NoMemory>
    ensures text { OnOk result (text.new.items ≡ text.old.items ++ datagram config.now order.now) }
    ensures same { IsRetransmission order.now → OnErr result (text.new.items ≡ text.old.items) }
    ensures full { IsRetransmission order.now
        → OnErr result (vec_capacity text.old < vec_len text.old + length (datagram config.now order.now)) }
    ensures unchanged { OnErr result (text.new.items ≡ text.old.items) }
    ensures lacks { OnErr result (vec_capacity text.old < length text.old.items + length (datagram config.now order.now)) }
{
    let channel = config.channel();
    match order {
        Order::Rtx { seq, packet, .. } => append_retransmission(text, packet, channel.rtx, *seq),
        Order::Info { info, .. } => append_info(text, channel.server, channel.ssrc, info),
    }
}

/// `append_order`, where it is told whether the order's packet has a fixed header alone.
#[tactic(auto, unfolding(rams_model::specs::Service::Orders::datagram))]
pub(crate) fn append_order_if(
    plain: bool,
    text: &mut Vec<u8>,
    config: &Config,
    order: &Order,
) -> Result<(), NoMemory>
    requires { plain ≡ true → has_plain order.now ≡ true }
    ensures { OnOk result (text.new.items ≡ text.old.items ++ datagram config.now order.now) }
{
    match order {
        Order::Rtx { seq, packet, .. } if plain => {
            append_plain(text, packet, config.channel().rtx, *seq)
        }
        _ => append_order(text, config, order),
    }
}

/// The retransmission of a packet, where it reads as one.
fn append_retransmission(
    text: &mut Vec<u8>,
    packet: &[u8],
    rtx: u8,
    seq: u16,
) -> Result<(), NoMemory>
    requires kind { rtx < 128 }
    ensures text { OnOk result (text.new.items ≡ text.old.items ++ sent_again rtx seq (packet_at packet.now)) }
    ensures same { OnErr result (text.new.items ≡ text.old.items) }
    ensures full { OnErr result
        (vec_capacity text.old < vec_len text.old + length (sent_again rtx seq (packet_at packet.now))) }
{
    if is_plain(packet) {
        return append_plain(text, packet, rtx, seq);
    }
    match Rtp::read(packet) {
        Ok(original) => append_rtx(text, &original, rtx, seq),
        Err(_) => Ok(()),
    }
}

/// Whether an order's packet, where it sends one, has a fixed header alone.
pub(crate) fn has_plain(order: &Order) -> bool
    ensures { result ≡ has_plain order.now }
{
    match order {
        Order::Rtx { packet, .. } => is_plain(packet),
        Order::Info { .. } => true,
    }
}

/// Whether an order's packet reads as one; a RAMS-I always renders.
pub fn renders(order: &Order) -> bool
    ensures { IsTrue result ↔ Renders order.now }
{
    match order {
        Order::Rtx { packet, .. } => Rtp::read(packet).is_ok(),
        Order::Info { .. } => true,
    }
}
