//! What looks on while a server serves.
ghost use Rattle.std.specs.Prelude.{◌≤◌};

use ram_io::Open;
use rams_model::LineFault;
use server_hub::{Heard, HubAnswer};

/// What looks on while a server serves, so that its operator can be told. Its methods answer nothing and
/// return: nothing that a server does depends on them.
pub trait Watch {
    /// The channel `id` takes live packets at the port `live`, and feedback at the port `feedback`.
    fn opens(&self, id: u16, live: u16, feedback: u16);

    /// The head's line of this number, from 1, is refused, and nothing is served.
    fn refuses(&self, line: u64, fault: LineFault);

    /// An event came, and this is what the channels answer.
    fn hears(&self, heard: Heard<'_>, answer: &HubAnswer);

    /// A tick is served a whole tick or more after its due moment.
    fn lags(&self);
}

impl Watch for Open {
    fn opens(&self, _id: u16, _live: u16, _feedback: u16) {}

    fn refuses(&self, _line: u64, _fault: LineFault) {}

    fn hears(&self, _heard: Heard<'_>, _answer: &HubAnswer) {}

    fn lags(&self) {}
}

/// Tells of the ports of the channels with these numbers, of which the first has this live port.
pub fn tell_ports<T: Watch>(watch: &T, ids: &[u16], first: u16)
    requires port { first ≤ 65000 }
{
    for place in 0..64 {
        let Some(id) = ids.get(usize::from(place)) else {
            return;
        };
        let live = first + 2 * place;
        watch.opens(*id, live, live + 1);
    }
}
