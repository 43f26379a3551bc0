//! An event of one channel.
ghost use Rattle.std.specs.Prelude.{◌≡◌, ◌^◌, ◌<◌, All, IfOk, OnErr, length};
ghost use Rattle.rams_model.specs.declared.Event.TheVariants.{Live, Feedback};
ghost use Rattle.server_hub.specs.session_core.{StandsForFewer};
ghost use Rattle.server_hub.specs.{StepsAt};

use crate::session_core::Core;
use ram_io::NoMemory;
use rams_model::Answer;
use std::alloc::Global;

/// A live packet of the channel at this place.
pub(crate) fn live_at(
    cores: &mut [Core],
    alloc: Global,
    place: usize,
    bytes: &[u8],
) -> Result<Answer, NoMemory>
    requires place { place < length cores.old }
    requires few { All (λ core. StandsForFewer core (2 ^ 40)) cores.old }
    ensures steps { IfOk result (StepsAt (Live bytes.now) place cores.old cores.new) }
    ensures same { OnErr result (cores.new ≡ cores.old) }
{
    cores[place].live(alloc, bytes)
}

/// A feedback datagram of a client of the channel at this place.
pub(crate) fn feedback_at(
    cores: &mut [Core],
    alloc: Global,
    place: usize,
    client: u64,
    bytes: &[u8],
) -> Result<Answer, NoMemory>
    requires place { place < length cores.old }
    ensures steps { IfOk result (StepsAt (Feedback client bytes.now) place cores.old cores.new) }
    ensures same { OnErr result (cores.new ≡ cores.old) }
{
    cores[place].feedback(alloc, client, bytes)
}
