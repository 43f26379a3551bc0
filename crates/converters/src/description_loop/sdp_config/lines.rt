//! The lines of a description (RFC 8866, 5).
ghost use Rattle.std.specs.Prelude.{◌≡◌, ◌∷◌, ◌<◌, length};
ghost use Rattle.converters.specs.description_loop.sdp_config.{lines_in, lines_left, bare, is_line, is_media};

use memchr::memchr;

/// Most bytes of a line, without its end.
pub const LONGEST_LINE: usize = 4096;

/// The lines that are left of a text: each ends with LF or CR LF, and the last may lack it.
#[derive(Clone, Copy)]
pub struct Lines<'a> {
    rest: &'a [u8],
}

impl<'a> Lines<'a> {
    /// All lines of a text.
    pub fn of(text: &'a [u8]) -> Lines<'a>
        ensures { lines_left result ≡ lines_in text.now }
    {
        Lines { rest: text }
    }
}

impl<'a> Iterator for Lines<'a> {
    ghost use Rattle.std.specs.Iterator.{YieldsFirstRef, item_count};
    ghost use Rattle.converters.specs.description_loop.sdp_config.{lines_left};

    type Item = &'a [u8];

    ghost next_gives = { YieldsFirstRef lines_left };

    ghost remaining = { item_count lines_left };

    fn next(&mut self) -> Option<&'a [u8]> {
        if self.rest.is_empty() {
            return None;
        }
        let (line, rest) = cut(self.rest);
        self.rest = rest;
        Some(line)
    }
}

// The first line, and what stands after its end.
#[tactic(auto, using(crate::proofs::description_loop::sdp_config::Cuts::lines_at, crate::proofs::description_loop::sdp_config::Cuts::lines_whole))]
fn cut(text: &[u8]) -> (&[u8], &[u8])
    requires { 0 < length text.now }
    ensures { lines_in text.now ≡ result.0.now ∷ lines_in result.1.now }
{
    match memchr(b'\n', text) {
        Some(at) => (bare(text.split_at(at).0), text.split_at(at + 1).1),
        None => (text, &[]),
    }
}

// A line without the CR at its end.
fn bare(line: &[u8]) -> &[u8]
    ensures { result.now ≡ bare line.now }
{
    line.strip_suffix(b"\r").unwrap_or(line)
}

/// Whether these bytes are a line of a description: a letter, `=` and any bytes, at most 4,096 in all.
pub fn is_line(line: &[u8]) -> bool
    ensures { result ≡ is_line line.now }
{
    match line {
        [letter, b'=', ..] => letter.is_ascii_lowercase() && line.len() <= LONGEST_LINE,
        _ => false,
    }
}

/// Whether a section begins with this line.
pub fn is_media(line: &[u8]) -> bool
    ensures { result ≡ is_media line.now }
{
    line.first() == Some(&b'm')
}
