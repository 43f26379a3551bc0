//! The datagrams that a receiver sends. Each is a report, who the receiver is, and a message (RFC
//! 3550, 6.1).
ghost use Rattle.std.specs.Prelude.{◌≡◌, ◌++◌, ◌<◌, ◌≤◌, length, map, IfOk};
ghost use Rattle.rams_model.specs.Formats.{rr_packet, sdes_packet, nack_packet};
ghost use Rattle.rams_model.specs.Receiver.{compound, request_datagram, join_datagram, bye_datagram};

use ram_io::NoMemory;
use rams_model::{Stop, Tuned};
use std::alloc::Global;
use wire_packets::rams_tlv::{Request, append_request, append_stop};
use wire_packets::rtcp_feedback::append_nack;
use wire_packets::rtcp_frame::{append_bye, append_rr, append_sdes};

/// A RAMS-R with an empty list of media sources: it asks for all that the channel has (RFC 6285,
/// 7.2).
#[tactic(auto, unfolding(rams_model::specs::Formats::Joined::words32))]
pub(crate) fn request_datagram(alloc: Global, tuned: &Tuned) -> Result<Vec<u8>, NoMemory>
    ensures { IfOk result (λ text. text.items ≡ request_datagram tuned.now) }
{
    let request = Request {
        ssrcs: Some(&[]),
        min_ms: None,
        max_ms: None,
        bps: None,
        preamble: false,
    };
    let mut text = begin(alloc, tuned)?;
    append_request(&mut text, tuned.ssrc, tuned.media, &request)?;
    Ok(text)
}

/// A RAMS-T that names the packet with which the receiver joined (RFC 6285, 7.4).
pub(crate) fn join_datagram(alloc: Global, tuned: &Tuned, n: u64) -> Result<Vec<u8>, NoMemory>
    ensures { IfOk result (λ text. text.items ≡ join_datagram tuned.now n) }
{
    let stop = Stop {
        first_multicast: Some((n % EXTENDED_NUMBERS) as u32),
    };
    let mut text = begin(alloc, tuned)?;
    append_stop(&mut text, tuned.ssrc, tuned.media, &stop)?;
    Ok(text)
}

// There are so many extended sequence numbers in messages (RFC 3550, 6.4.1).
const EXTENDED_NUMBERS: u64 = 1 << 32;

/// A generic NACK of these numbers, 1 to 8,000 (RFC 4585, 6.2.1).
pub(crate) fn nack_datagram(
    alloc: Global,
    tuned: &Tuned,
    numbers: &[u16],
) -> Result<Vec<u8>, NoMemory>
    requires some { 0 < length numbers.now }
    requires few { length numbers.now ≤ 8000 }
    ensures { IfOk result (λ text. text.items ≡ compound tuned.now (nack_packet tuned.now.ssrc tuned.now.media numbers.now)) }
{
    let mut text = begin(alloc, tuned)?;
    append_nack(&mut text, tuned.ssrc, tuned.media, numbers)?;
    Ok(text)
}

/// A BYE (RFC 3550, 6.6).
pub(crate) fn bye_datagram(alloc: Global, tuned: &Tuned) -> Result<Vec<u8>, NoMemory>
    ensures { IfOk result (λ text. text.items ≡ bye_datagram tuned.now) }
{
    let mut text = begin(alloc, tuned)?;
    append_bye(&mut text, tuned.ssrc)?;
    Ok(text)
}

// The report, and who the receiver is.
fn begin(alloc: Global, tuned: &Tuned) -> Result<Vec<u8>, NoMemory>
    ensures { IfOk result (λ text. text.items ≡ rr_packet tuned.now.ssrc ++ sdes_packet tuned.now.ssrc) }
{
    let mut text = Vec::new(alloc);
    append_rr(&mut text, tuned.ssrc)?;
    append_sdes(&mut text, tuned.ssrc)?;
    Ok(text)
}
