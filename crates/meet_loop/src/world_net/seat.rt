//! The receivers of a world.
ghost use Rattle.std.specs.Prelude.{◌≡◌, ◌+◌, Some};
ghost use Rattle.meet_loop.specs.world_laws.{is_too_far};
ghost use Rattle.meet_loop.specs.world_net.{seat_is_too_far, first_with};

use receiver_core::Receiver;

/// A receiver that was tuned.
#[derive(Drop)]
pub(crate) struct Seat<'a> {
    /// `None` once it left.
    pub receiver: Option<Receiver<'a>>,
    /// The source's number of the receiver's first packet, once that is fixed.
    pub first: Option<u64>,
}

impl<'a> Seat<'a> {
    /// Whether the source's packet of this number is too far from the one that is presented next: its low
    /// 16 bits could stand for a nearer one.
    pub(crate) fn is_too_far(&self, x: u64) -> bool
        ensures { result ≡ seat_is_too_far self.now x }
    {
        let (Some(first), Some(receiver)) = (self.first, &self.receiver) else {
            return false;
        };
        match (receiver.first(), receiver.next()) {
            (Some(own_first), Some(own_next)) => {
                is_far_ahead(first, own_next.saturating_sub(own_first), x)
            }
            _ => false,
        }
    }
}

// The next number is so many above the first.
fn is_far_ahead(first: u64, shown: u64, x: u64) -> bool
    ensures { result ≡ is_too_far (Some (first + shown)) x }
{
    if x < first {
        let below = first - x;
        return below > BEHIND || shown > BEHIND - below;
    }
    let above = x - first;
    if above < shown {
        shown - above > BEHIND
    } else {
        above - shown > AHEAD
    }
}

// So far below the next number, or above it, 16 bits tell a number from all others.
const BEHIND: u64 = 32768;

const AHEAD: u64 = 32767;

/// The source's number of the first packet, where one with the number `x` came that is so far ahead of it.
pub(crate) fn first_with(first: Option<u64>, x: u64, distance: Option<u64>) -> Option<u64>
    ensures { result ≡ first_with first x distance }
{
    match (first, distance) {
        (None, Some(distance)) => Some(x.saturating_sub(distance)),
        _ => first,
    }
}
