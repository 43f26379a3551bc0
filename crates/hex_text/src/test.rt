//! Whether bytes are digits, in vectors.
ghost use Rattle.std.specs.Prelude.{◌≡◌, ◌&&◌, ◌≤◌, length};
ghost use Rattle.std.specs.List.{list_all};
ghost use Rattle.hex_text.specs.{is_lower_digit};
ghost use Rattle.hex_text.specs.Extremes.{AreLanes, are_within};

use std::simd::u8x32;

/// Whether each byte is a lower-case hexadecimal digit.
pub fn are_digits(text: &[u8]) -> bool
    ensures { result ≡ list_all is_lower_digit text.now }
{
    if text.len() < 32 {
        return text.iter().all(|byte| is_digit(*byte));
    }
    are_many_digits(text)
}

fn is_digit(byte: u8) -> bool
    ensures { result ≡ is_lower_digit byte }
{
    byte.is_ascii_digit() | (b'a'..=b'f').contains(&byte)
}

// They go in blocks of 32, and the last 32 once more, of which a part is in no block.
fn are_many_digits(text: &[u8]) -> bool
    requires { 32 ≤ length text.now }
    ensures { result ≡ list_all is_lower_digit text.now }
{
    let mut extremes = extremes_of(u8x32::from_slice(&text[text.len() - 32..]));
    'blocks: for k in 0..text.len() / 32 {
        extremes = widened(extremes, u8x32::from_slice(&text[32 * k..32 * k + 32]));
    }
    is_within(extremes)
}

/// The extremes of some bytes, by lanes. All the bytes are digits just where none of their extremes is less than
/// `0`, more than `f`, or so far from `a` that it stands between `9` and `a`.
#[derive(Clone, Copy)]
struct Extremes {
    least: u8x32,
    most: u8x32,
    /// The most of their distances from `a`, modulo 256.
    farthest: u8x32,
}

#[inline]
fn extremes_of(bytes: u8x32) -> Extremes
    ensures lanes { AreLanes result }
    ensures digits { are_within result ≡ list_all is_lower_digit bytes }
{
    Extremes {
        least: bytes,
        most: bytes,
        farthest: bytes - u8x32::splat(b'a'),
    }
}

// The extremes of more bytes.
#[inline]
fn widened(extremes: Extremes, bytes: u8x32) -> Extremes
    requires { AreLanes extremes }
    ensures lanes { AreLanes result }
    ensures digits { are_within result ≡ (are_within extremes && list_all is_lower_digit bytes) }
{
    Extremes {
        least: extremes.least.simd_min(bytes),
        most: extremes.most.simd_max(bytes),
        farthest: extremes.farthest.simd_max(bytes - u8x32::splat(b'a')),
    }
}

#[inline]
fn is_within(extremes: Extremes) -> bool
    requires { AreLanes extremes }
    ensures { result ≡ are_within extremes }
{
    let less = extremes.least.simd_lt(u8x32::splat(b'0'));
    let more = extremes.most.simd_gt(u8x32::splat(b'f'));
    let between = extremes.farthest.simd_gt(u8x32::splat(216));
    (less.to_bitmask() == 0) & ((more.to_bitmask() == 0) & (between.to_bitmask() == 0))
}
