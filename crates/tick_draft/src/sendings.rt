//! Packets that were sent to one client.
ghost use Rattle.std.specs.Prelude.{◌≡◌, IfSome};
ghost use Rattle.tick_draft.specs.{one_sending, both_sendings};

/// Packets that were sent to one client, with nothing noted between them.
#[derive(Clone, Copy, PartialEq, Eq)]
pub struct Sendings {
    pub client: u64,
    /// How many they are.
    pub packets: u16,
    /// How many of them are of its burst.
    pub of_burst: u16,
    /// The bytes that they take on the wire.
    pub bytes: u64,
}

impl Sendings {
    /// One packet of this size, and so many of the burst.
    pub fn one(client: u64, of_burst: u16, bytes: u64) -> Sendings
        ensures { result ≡ one_sending client of_burst bytes }
    {
        Sendings {
            client,
            packets: 1,
            of_burst,
            bytes,
        }
    }

    /// These and those after them, where they are to the same client. `None` also where a sum would be
    /// too large.
    pub fn and(&self, next: &Sendings) -> Option<Sendings>
        ensures { IfSome result (λ both. (next.now.client ≡ self.now.client) × (both ≡ both_sendings self.now next.now)) }
    {
        if next.client != self.client {
            return None;
        }
        Some(Sendings {
            client: self.client,
            packets: self.packets.checked_add(next.packets)?,
            of_burst: self.of_burst.checked_add(next.of_burst)?,
            bytes: self.bytes.checked_add(next.bytes)?,
        })
    }
}
