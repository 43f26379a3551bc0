//! What the bursts of a tick are drafted with.
ghost use Rattle.std.specs.Prelude.{◌≡◌, true, IfOk};
ghost use Rattle.tick_draft.specs.{with_packet, with_end, sends};

use ram_io::NoMemory;
use rams_model::{Cause, Held, Info, Note};

/// What keeps the notes and orders of a tick's bursts, or what they come to.
pub trait Drafting {
    ghost use Rattle.tick_draft.specs.{Drafted};

    /// It stands for this draft.
    ghost shows: { Self → Drafted → Type 0 };

    /// Makes a note that sends the packet to the client, under this number of its retransmission stream
    /// (RFC 4588, 4).
    fn send_packet(
        &mut self,
        note: Note,
        client: u64,
        seq: u16,
        held: &Held,
    ) -> Result<(), NoMemory>
        requires { sends note ≡ true }
        ensures { (d : Drafted) → shows self.old d →
            IfOk result (λ _. shows self.new (with_packet d note client seq held.now)) };

    /// Notes the end of a client's burst, where there is a cause, and tells the client (RFC 6285, 7.3).
    fn end_burst(&mut self, client: u64, last: &Info, cause: Option<Cause>) -> Result<(), NoMemory>
        ensures { (d : Drafted) → shows self.old d →
            IfOk result (λ _. shows self.new (with_end d client last.now cause)) };
}
