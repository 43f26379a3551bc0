//! What tests begin with: bytes in words, and texts in lines.

ghost use Rattle.std.specs.Prelude.{◌≡◌, ◌++◌, flat_map, IfOk};
ghost use Rattle.test_fixtures.specs.test_words.{bytes_in};

use std::alloc::{AllocError, Global};
use std::test::Fail;

/// Bytes, as words of hexadecimal digits.
pub type Words = &'static [&'static str];

/// The bytes of words of hexadecimal digits.
pub fn bytes_of(alloc: Global, words: &[&str]) -> Result<Vec<u8>, Fail>
    ensures { IfOk result (λ bytes. bytes.items ≡ flat_map (λ word. bytes_in word.now) words.now) }
{
    let mut bytes = Vec::new(alloc);
    for word in words {
        let piece = hex::decode(alloc, word.as_bytes())?;
        bytes.extend_from_slice(&piece)?;
    }
    Ok(bytes)
}

/// Lines, each with this end.
pub fn joined(alloc: Global, lines: &[&str], end: &str) -> Result<Vec<u8>, AllocError>
    ensures { IfOk result (λ text. text.items ≡ flat_map (λ line. line.now ++ end.now) lines.now) }
{
    let mut text = Vec::new(alloc);
    for line in lines {
        text.extend_from_slice(line.as_bytes())?;
        text.extend_from_slice(end.as_bytes())?;
    }
    Ok(text)
}
