//! Where a burst stops.
ghost use Rattle.std.specs.Prelude.{◌≡◌, ◌<◌, ◌^◌};
ghost use Rattle.rams_model.specs.Service.{stop_of};

use crate::ext_seq::{SEQUENCE_NUMBERS, least_from};

/// The number of the packet before which a burst stops, by its client's RAMS-T (RFC 6285, 7.4).
///
/// It is the least number from `first` on, the first of the burst, with the low 16 bits of `named`,
/// the Extended RTP Seqnum of First Multicast Packet. It is `next`, the number of the packet that
/// would be sent next, where that is greater or none is named.
pub fn stop_of(first: u64, next: u64, named: Option<u32>) -> u64
    requires { first < 2 ^ 63 }
    ensures { result ≡ stop_of first next named }
{
    match named {
        Some(named) => next.max(least_from(first, (named % SEQUENCE_NUMBERS as u32) as u16)),
        None => next,
    }
}
