//! The bytes of a datagram that a server sends.
ghost use Rattle.std.specs.Prelude.{◌≡◌, ◌<◌, ◌++◌, IfOk, IfSome, OnErr, OnOk};
ghost use Rattle.rams_model.specs.Formats.{packet_at};
ghost use Rattle.rams_model.specs.Service.{sent_again};

use ram_io::NoMemory;
use receiver_core::Lent;
use std::marker::Model;
use wire_packets::rtp_record::Rtp;
use wire_packets::rtx_payload::{append_plain, append_rtx, is_plain};

/// What a retransmission has in place of its packet's own (RFC 4588, 4).
#[derive(Clone, Copy)]
struct Again {
    payload_type: u8,
    sequence: u16,
}

/// The bytes of a datagram. A retransmission is lent the packet that it repeats, and is spelled only
/// where it is read.
#[derive(Drop)]
pub struct SentBytes<'a> {
    bytes: Lent<'a>,
    /// The bytes are the packet of a retransmission.
    again: Option<Again>,
}

impl<'a> Model for SentBytes<'a> {
    ghost use Rattle.std.specs.Prelude.{List, ℕ, ◌<◌, IfSome};

    ghost Value = { List ℕ };

    ghost use Rattle.meet_loop.specs.world_laws.Spelling.{spelled};

    ghost view = { λ sent. spelled sent.bytes sent.again };

    ghost invariant = { λ sent. IfSome sent.again (λ again. again.payload_type < 128) };
}

impl<'a> SentBytes<'a> {
    /// These bytes. It takes no memory.
    pub fn whole(bytes: &'a [u8]) -> SentBytes<'a>
        ensures { result ≡ bytes.now }
    {
        SentBytes {
            bytes: Lent::of(bytes),
            again: None,
        }
    }

    /// The retransmission of a packet (RFC 4588, 4); no bytes where it doesn't read as one. It takes no
    /// memory.
    pub fn again(packet: &'a [u8], payload_type: u8, sequence: u16) -> SentBytes<'a>
        requires { payload_type < 128 }
        ensures { result ≡ sent_again payload_type sequence (packet_at packet.now) }
    {
        SentBytes {
            bytes: Lent::of(packet),
            again: Some(Again {
                payload_type,
                sequence,
            }),
        }
    }

    /// Appends them to a text. An error changes nothing.
    pub fn append_to(&self, text: &mut Vec<u8>) -> Result<(), NoMemory>
        ensures text { OnOk result (text.new.items ≡ text.old.items ++ self.now) }
        ensures same { OnErr result (text.new.items ≡ text.old.items) }
    {
        match self.again {
            Some(again) => {
                append_again(
                    text,
                    self.bytes.as_slice(),
                    again.payload_type,
                    again.sequence,
                )
            }
            None => Ok(text.extend_from_slice(self.bytes.as_slice())?),
        }
    }
}

/// A retransmission by its packet (RFC 4588, 4).
#[derive(Clone, Copy)]
pub struct Repeat<'a> {
    pub packet: &'a [u8],
    /// Below 128.
    pub payload_type: u8,
    pub sequence: u16,
}

// The retransmission of a packet, where it reads as one.
fn append_again(
    text: &mut Vec<u8>,
    packet: &[u8],
    payload_type: u8,
    sequence: u16,
) -> Result<(), NoMemory>
    requires { payload_type < 128 }
    ensures text { OnOk result (text.new.items ≡ text.old.items ++ sent_again payload_type sequence (packet_at packet.now)) }
    ensures same { OnErr result (text.new.items ≡ text.old.items) }
{
    if is_plain(packet) {
        return append_plain(text, packet, payload_type, sequence);
    }
    match Rtp::read(packet) {
        Ok(original) => append_rtx(text, &original, payload_type, sequence),
        Err(_) => Ok(()),
    }
}
