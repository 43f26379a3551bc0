//! The window of a buffer that holds what was taken and isn't handed out yet.
ghost use Rattle.std.specs.Prelude.{◌≡◌, ◌+◌, ◌-◌, ◌≤◌, ℕ, length, take, drop, slice_range, IfOk, OnErr, IsOkAnd, MatchOption};
ghost use Rattle.std.specs.Io.KnownBytes.{Consumes, Keeps, IsAtEnd};
ghost use Rattle.ram_io.specs.{HasCause};
ghost use Rattle.line_io.specs.{HasNoFeed, IsCutAt};

use memchr::memchr;
use ram_io::{Failed, Source};

// Most bytes of a line without its line feed, and least that one call asks of a source.
pub(crate) const LONGEST: usize = 4096;

// The place of the first line feed. None of the first `seen` bytes is one.
pub(crate) fn find_feed(bytes: &[u8], seen: usize) -> Option<usize>
    requires within { seen ≤ length bytes.now }
    requires clean { HasNoFeed (take seen bytes.now) }
    ensures { MatchOption result (HasNoFeed bytes.now) (IsCutAt bytes.now) }
{
    let (_, fresh) = bytes.split_at(seen);
    match memchr(b'\n', fresh) {
        Some(at) => Some(seen + at),
        None => None,
    }
}

// Moves the window to the front of the buffer if fewer than `LONGEST` bytes are free behind it,
// and says where it begins now.
pub(crate) fn make_room(bytes: &mut [u8], from: usize, to: usize) -> usize
    requires ordered { from ≤ to }
    requires within { to ≤ length bytes.old }
    requires small { to - from + 4096 ≤ length bytes.old }
    ensures room { result + (to - from) + 4096 ≤ length bytes.old }
    ensures same { slice_range bytes.new result (result + (to - from)) ≡ slice_range bytes.old from to }
{
    if LONGEST <= bytes.len() - to {
        return from;
    }
    bytes.copy_within(from..to, 0);
    0
}

// Takes bytes of the source to this place of the buffer, as many as have room behind it, and says how many.
// Where the source fails, nothing is taken.
pub(crate) fn take_into<S: Source>(
    source: &mut S,
    bytes: &mut [u8],
    at: usize,
) -> Result<usize, Failed>
    requires { at + 4096 ≤ length bytes.old }
    ensures front { take at bytes.new ≡ take at bytes.old }
    ensures bound { IfOk result (λ n. at + n ≤ length bytes.old) }
    ensures bytes { IfOk result (λ n. Consumes (S.left source.old) (S.left source.new) (take n (drop at bytes.new))) }
    ensures end { IfOk result (λ n. n ≡ 0 → IsAtEnd (S.left source.new)) }
    ensures same { OnErr result (Keeps (S.left source.old) (S.left source.new)) }
    ensures cause { HasCause (S.faults source.old) (S.faults source.new) result }
    ensures steady { S.is_steady source.old → IsOkAnd result (λ _. S.is_steady source.new) }
{
    source.take(&mut bytes[at..])
}
