//! Digits of bytes.
ghost use Rattle.std.specs.Prelude.{◌≡◌, ◌+◌, ◌*◌, ◌++◌, ◌<◌, ◌≤◌, length, take, drop, slice_index};
ghost use Rattle.hex.specs.Hex.{encode_lower, lower_digits};

use crate::block::encode_block;

/// Writes two lower-case hexadecimal digits for each byte into the front of `out`, the high one
/// first. The rest of `out` stays.
pub fn encode_into(bytes: &[u8], out: &mut [u8])
    requires { 2 * length bytes.now ≤ length out.old }
    ensures text { take (2 * length bytes.now) out.new ≡ encode_lower bytes.now }
    ensures rest { drop (2 * length bytes.now) out.new ≡ drop (2 * length bytes.now) out.old }
{
    encode_all(bytes, &mut out[..2 * bytes.len()]);
}

// Writes two digits for each byte over all of `out`. They go in blocks of 16 bytes.
pub(crate) fn encode_all(bytes: &[u8], out: &mut [u8])
    requires { length out.old ≡ 2 * length bytes.now }
    ensures { out.new ≡ encode_lower bytes.now }
{
    let blocks = bytes.len() / 16;
    'parts: for k in 0..blocks {
        encode_block(&bytes[16 * k..16 * k + 16], &mut out[32 * k..32 * k + 32]);
    }
    encode_rest(bytes, out, 16 * blocks);
}

// Writes the digits of the bytes from a place on, where those in front are written. The last 16 bytes go
// as a block, of which a part was written before; fewer go one by one.
fn encode_rest(bytes: &[u8], out: &mut [u8], done: usize)
    requires room { length out.old ≡ 2 * length bytes.now }
    requires within { done ≤ length bytes.now }
    requires short { length bytes.now < done + 16 }
    requires front { take (2 * done) out.old ++ encode_lower (drop done bytes.now) ≡ encode_lower bytes.now }
    ensures { out.new ≡ encode_lower bytes.now }
{
    let size = bytes.len();
    if size < 16 {
        encode_bytes(&bytes[done..], &mut out[2 * done..]);
    } else {
        encode_block(&bytes[size - 16..], &mut out[2 * (size - 16)..]);
    }
}

fn encode_bytes(bytes: &[u8], out: &mut [u8])
    requires { length out.old ≡ 2 * length bytes.now }
    ensures { out.new ≡ encode_lower bytes.now }
{
    'bytes: for i in 0..bytes.len() {
        let byte = bytes[i];
        out[2 * i] = digit(byte / 16);
        out[2 * i + 1] = digit(byte % 16);
    }
}

// The digit of a number below 16.
#[inline]
pub(crate) fn digit(n: u8) -> u8
    requires { n < 16 }
    ensures { result ≡ slice_index lower_digits n }
{
    if n < 10 { b'0' + n } else { b'a' - 10 + n }
}
