//! What a receiver presents.
ghost use Rattle.std.specs.Prelude.{◌≡◌, ◌++◌, OnOk, map};
ghost use Rattle.receiver_core.specs.{reach, with_got};
ghost use Rattle.meet_loop.specs.world_net.{show_at, all_shown, all_presented};

use crate::world_laws::{WorldItem, WorldNote};
use crate::world_net::telling::say;
use ram_io::NoMemory;
use receiver_core::Receiver;

/// Presents all that can be, and adds what is said of that.
pub(crate) fn present_all<'a>(
    receiver: &mut Receiver<'a>,
    id: u16,
    client: u64,
    notes: &mut Vec<WorldNote<'a>>,
) -> Result<(), NoMemory>
    ensures notes { OnOk result (notes.new.items ≡ notes.old.items ++ map (show_at id client) (all_shown receiver.old.got)) }
    ensures receiver { OnOk result (receiver.new ≡ with_got (all_presented receiver.old.got) receiver.old) }
    ensures reach { reach receiver.new ≡ reach receiver.old }
{
    while let Some(shown) = receiver.present() {
        let item = WorldItem::Show {
            client,
            n: shown.n,
            packet: shown.packet,
        };
        say(notes, id, item)?;
    }
    Ok(())
}
