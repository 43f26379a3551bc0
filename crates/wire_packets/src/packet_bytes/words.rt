//! Words of 32 bits, in network byte order.
ghost use Rattle.std.specs.Prelude.{◌≡◌, ◌==◌};
ghost use Rattle.std.specs.List.{list_any};
ghost use Rattle.rams_model.specs.Formats.{words32};

use byteorder::{BigEndian, ByteOrder};

/// Whether one of the whole words that the bytes are is this number, as the SSRC of a BYE (RFC 3550,
/// 6.6) or of a request (RFC 6285, 7.2). Up to three bytes behind the last whole word aren't looked
/// at.
#[tactic(auto, using(crate::proofs::packet_bytes::Listed::listed))]
pub fn has_word(bytes: &[u8], number: u32) -> bool
    ensures { result ≡ list_any (λ w. w == number) (words32 bytes.now) }
{
    let mut rest = bytes;
    while rest.len() >= 4 {
        if BigEndian::read_u32(rest) == number {
            return true;
        }
        (_, rest) = rest.split_at(4);
    }
    false
}
