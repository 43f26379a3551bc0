//! Where the parts of a packet begin (RFC 3550, 5.1).
ghost use Rattle.std.specs.Prelude.{◌≡◌, ◌+◌, ◌-◌, ◌≤◌, length, drop, if◌then◌else◌};
ghost use Rattle.std.specs.Int.{w16, w32, from_be_bytes};
ghost use Rattle.rams_model.specs.Formats.{csrc_size, extension_size, behind_csrc, behind_extension, lacks_extension, miscounts_padding, padding_size};

use byteorder::{BigEndian, ByteOrder};
use rams_model::RtpFault;

// The number in the two bytes from a place on, big-endian.
pub(crate) fn short_at(bytes: &[u8], at: usize) -> u16
    requires { at + 2 ≤ length bytes.now }
    ensures { result ≡ from_be_bytes w16 (drop at bytes.now) }
{
    let (_, rest) = bytes.split_at(at);
    BigEndian::read_u16(rest)
}

// The number in the four bytes from a place on, big-endian.
pub(crate) fn word_at(bytes: &[u8], at: usize) -> u32
    requires { at + 4 ≤ length bytes.now }
    ensures { result ≡ from_be_bytes w32 (drop at bytes.now) }
{
    let (_, rest) = bytes.split_at(at);
    BigEndian::read_u32(rest)
}

// Where the header extension ends that begins there, if the first byte announces one: its own
// header says how many words follow (RFC 3550, 5.3.1).
pub(crate) fn extension_end(bytes: &[u8], at: usize) -> Result<usize, RtpFault>
    requires whole { 12 ≤ length bytes.now }
    requires start { at ≡ 12 + csrc_size bytes.now }
    requires within { at ≤ length bytes.now }
    ensures { result ≡ (if lacks_extension bytes.now then Err RtpFault.Extension else Ok (at + extension_size bytes.now)) }
{
    if bytes[0] / 16 % 2 == 0 {
        return Ok(at);
    }
    let (_, behind) = bytes.split_at(at);
    if behind.len() < 4 {
        return Err(RtpFault::Extension);
    }
    let size = 4 + 4 * usize::from(short_at(behind, 2));
    if behind.len() < size {
        return Err(RtpFault::Extension);
    }
    Ok(at + size)
}

// Where the padding begins, behind a payload that begins there: the last byte counts its bytes, if
// the first byte announces padding.
pub(crate) fn padding_start(bytes: &[u8], at: usize) -> Result<usize, RtpFault>
    requires whole { 12 ≤ at }
    requires start { at ≡ 12 + csrc_size bytes.now + extension_size bytes.now }
    requires within { at ≤ length bytes.now }
    ensures { result ≡ (if miscounts_padding bytes.now then Err RtpFault.Padding else Ok (length bytes.now - padding_size bytes.now)) }
{
    if bytes[0] / 32 % 2 == 0 {
        return Ok(bytes.len());
    }
    let size = usize::from(bytes[bytes.len() - 1]);
    if size == 0 || bytes.len() - at < size {
        return Err(RtpFault::Padding);
    }
    Ok(bytes.len() - size)
}
