//! The receiver's numbers, which extend sequence numbers of 16 bits.
ghost use Rattle.std.specs.Prelude.{◌≡◌, ◌+◌, ◌^◌, ◌<◌, ◌≤◌, IfSome};
ghost use Rattle.rams_model.specs.Packets.{ahead};
ghost use Rattle.rams_model.specs.Receiver.{nearest, distance_from, first_number};

use reckoning::ext_seq::{SEQUENCE_NUMBERS, ahead};

/// How many numbers, from the next on, a receiver has room for.
pub(crate) const ROOM: u64 = 16384;

// Up to so many ahead is ahead; the others are behind.
const HALF: u64 = 32768;

/// The number nearest to another with these low 16 bits.
pub(crate) fn nearest(n: u64, low: u16) -> u64
    requires high { 65536 ≤ n }
    requires small { n < 2 ^ 62 }
    ensures value { result ≡ nearest n low }
    ensures limit { result < n + 32768 }
{
    let ahead = ahead(low, n);
    if ahead < HALF {
        n + ahead
    } else {
        n + ahead - SEQUENCE_NUMBERS
    }
}

/// How far a retransmission with this sequence number is ahead of the one that is `named` in the RAMS-I
/// that was taken, where that is less than the room.
pub(crate) fn distance_from(named: Option<u16>, sequence: u16) -> Option<u64>
    ensures value { result ≡ distance_from named sequence }
    ensures few { IfSome result (λ d. d < 16384) }
{
    let distance = ahead(sequence, u64::from(named?));
    if distance >= ROOM {
        return None;
    }
    Some(distance)
}

/// The first number, where a retransmission with this sequence number, of the packet with these
/// low 16 bits, fixes it: its own is `named` in the RAMS-I that was taken, or less than the room
/// ahead of it.
pub(crate) fn first_number(named: Option<u16>, sequence: u16, low: u16) -> Option<u64>
    ensures value { result ≡ first_number named sequence low }
    ensures high { IfSome result (λ n. 65536 ≤ n) }
    ensures limit { IfSome result (λ n. n < 131072) }
{
    let distance = distance_from(named, sequence)?;
    Some(SEQUENCE_NUMBERS + ahead(low, distance))
}
