//! Digits and bytes in blocks: 32 digits and their 16 bytes, in vectors.
ghost use Rattle.std.specs.Prelude.{◌≡◌, ◌<◌, true, length, map, slice_index};
ghost use Rattle.std.specs.List.{list_all};
ghost use lib.Lanes.{Each1};
ghost use Rattle.hex.specs.Hex.{encode_lower, lower_digits};
ghost use Rattle.hex_text.specs.{is_lower_digit, joined_values, pair_bytes, value_of};

use std::simd::{u8x16, u8x32, u16x16};

// Writes the 16 bytes of 32 digits over `out`.
#[inline]
pub(crate) fn decode_block(digits: &[u8], out: &mut [u8])
    requires count { length digits.now ≡ 32 }
    requires lower { list_all is_lower_digit digits.now ≡ true }
    requires room { length out.old ≡ 16 }
    ensures { out.new ≡ pair_bytes digits.now }
{
    let values = values_of(u8x32::from_slice(digits));
    out.copy_from_slice(&joined(values).to_array());
}

// What digits stand for. Of a digit's distances from `0` and from ten before `a`, modulo 256, the right one
// is the less: for `0` to `9` the second wraps.
#[inline]
fn values_of(digits: u8x32) -> u8x32
    requires { Each1 (λ d. is_lower_digit d ≡ true) digits }
    ensures { result ≡ map value_of digits }
{
    (digits - u8x32::splat(b'0')).simd_min(digits - u8x32::splat(b'a' - 10))
}

// The bytes of pairs of values below 16. A pair is a word whose low byte is the first value, the high half of
// its byte.
#[inline]
fn joined(values: u8x32) -> u8x16
    requires { Each1 (λ v. v < 16) values }
    ensures { result ≡ joined_values values }
{
    let pairs = u16x16::from_le_bytes(values);
    (((pairs << u16x16::splat(12)) + pairs) >> u16x16::splat(8)).cast()
}

// Writes the 32 digits of 16 bytes over `out`.
#[inline]
pub(crate) fn encode_block(bytes: &[u8], out: &mut [u8])
    requires bytes { length bytes.now ≡ 16 }
    requires room { length out.old ≡ 32 }
    ensures { out.new ≡ encode_lower bytes.now }
{
    let bytes = u8x16::from_slice(bytes);
    let highs = digits_of(bytes >> u8x16::splat(4));
    let lows = digits_of(bytes & u8x16::splat(15));
    let (front, back) = highs.interleave(lows);
    let (left, right) = out.split_at_mut(16);
    left.copy_from_slice(&front.to_array());
    right.copy_from_slice(&back.to_array());
}

// The digits of numbers below 16.
#[inline]
fn digits_of(numbers: u8x16) -> u8x16
    requires { Each1 (λ n. n < 16) numbers }
    ensures { result ≡ map (slice_index lower_digits) numbers }
{
    u8x16::from_array(*b"0123456789abcdef").swizzle_dyn(numbers)
}
