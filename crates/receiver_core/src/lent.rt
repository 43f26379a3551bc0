//! Bytes in an arena.
ghost use Rattle.std.specs.Prelude.{◌≡◌, IfOk};

use bumpalo::Bump;
use ram_io::NoMemory;
use std::marker::Model;

/// Bytes that an arena lends for its whole life. Who shares them counts no owners.
#[derive(Drop)]
pub struct Lent<'a> {
    bytes: &'a [u8],
}

impl<'a> Model for Lent<'a> {
    ghost use Rattle.std.specs.Prelude.{List, ℕ};

    ghost Value = { List ℕ };

    ghost view = { λ l. l.bytes.now };
}

impl<'a> Lent<'a> {
    /// These bytes. It takes no memory.
    pub fn of(bytes: &'a [u8]) -> Lent<'a>
        ensures { result ≡ bytes.now }
    {
        Lent { bytes }
    }

    /// The same bytes, in the arena.
    pub fn copied(arena: &'a Bump, bytes: &[u8]) -> Result<Lent<'a>, NoMemory>
        ensures { IfOk result (λ lent. lent ≡ bytes.now) }
    {
        let bytes = arena.try_alloc_slice_copy(bytes)?;
        Ok(Lent { bytes })
    }

    /// The bytes, for as long as they are lent.
    pub fn as_slice(&self) -> &'a [u8]
        ensures { result.now ≡ self.now }
    {
        self.bytes
    }
}
