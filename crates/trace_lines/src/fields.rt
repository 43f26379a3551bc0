//! The fields of a line, read from its words one after another.
ghost use Rattle.std.specs.Prelude.{◌≡◌, ◌∷◌, false, true, IfSome, MatchOption};
ghost use Rattle.rams_model.specs.Texts.{number_in, word32_in, is_hex, field, one, access_in, version_in};
ghost use Rattle.trace_lines.specs.{is_end, is_named, last_hex_in, IsWord, Reads};

use crate::values::{access, hex_word, number, version, word32};
use crate::words::Words;
use rams_model::Access;

/// The next word as a number.
pub fn next_number(words: &mut Words<'_>) -> Option<u64>
    ensures { Reads result words.new (one number_in words.old) }
{
    if let Some(number) = words.take_number() {
        return Some(number);
    }
    number(words.next()?)
}

/// The next word as eight hexadecimal digits.
pub fn next_word32(words: &mut Words<'_>) -> Option<u32>
    ensures { Reads result words.new (one word32_in words.old) }
{
    word32(words.next()?)
}

/// The last word as hexadecimal digits. It isn't looked for a space, since none is a digit.
#[tactic(auto, using(crate::proofs::LastWord::last_hex_is))]
pub fn last_hex<'a>(words: &Words<'a>) -> Option<&'a [u8]>
    ensures word { IsWord result (last_hex_in words.now) }
    ensures digits { IfSome result (λ word. is_hex word.now ≡ true) }
{
    hex_word(words.rest()?)
}

/// The next word as the version of the text.
pub fn next_version(words: &mut Words<'_>) -> Option<u8>
    ensures { Reads result words.new (one version_in words.old) }
{
    version(words.next()?)
}

/// Whether no word is left.
pub fn ends(words: &mut Words<'_>) -> bool
    ensures { result ≡ is_end words.old }
{
    words.next().is_none()
}

/// The number behind this name.
pub fn number_field(words: &mut Words<'_>, name: &[u8]) -> Option<u64>
    ensures { Reads result words.new (field name.now number_in words.old) }
{
    number(named(words, name)?)
}

/// The eight hexadecimal digits behind this name.
pub fn word32_field(words: &mut Words<'_>, name: &[u8]) -> Option<u32>
    ensures { Reads result words.new (field name.now word32_in words.old) }
{
    word32(named(words, name)?)
}

/// What an access point is, behind this name.
pub fn access_field(words: &mut Words<'_>, name: &[u8]) -> Option<Access>
    ensures { Reads result words.new (field name.now access_in words.old) }
{
    access(named(words, name)?)
}

// The word behind this name.
fn named<'a>(words: &mut Words<'a>, name: &[u8]) -> Option<&'a [u8]>
    ensures { MatchOption result
        (is_named name.now words.old ≡ false)
        (λ value. words.old ≡ name.now ∷ value.now ∷ words.new) }
{
    if words.next()? != name {
        return None;
    }
    words.next()
}
