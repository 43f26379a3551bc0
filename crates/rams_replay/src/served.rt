//! The commands `serve` and `takeover`: a server over a wire, and how it ends.
ghost use Rattle.std.specs.Prelude.{◌≡◌, ◌≤◌, false};
ghost use Rattle.rams_model.specs.declared.Status.TheVariants.{BadTrace, ReadFault};
ghost use Rattle.serve_loop.specs.{Given, HasRoom, IfBothTold, IsGiven, served_datagrams, served_text};
ghost use Rattle.takeover.specs.takeover_loop.{HoldsItsLines, taken_datagrams, taken_text};
ghost use Rattle.rams_replay.specs.{HasServed, HasTakenOver, IsCausedOverWire, IsOrLacksMemory, is_words, no_room};

use crate::commands::status_of;
use ram_io::{Clock, Sink, Source, Wire};
use rams_model::Status;
use serve_loop::{Watch, serve};
use std::alloc::Global;
use takeover::takeover_loop::take_over;

/// Serves so many turns to the channels that a head opens, and says how that ended.
pub fn serve_status<S: Source, K: Sink, W: Wire, C: Clock, T: Watch>(
    alloc: Global,
    source: &mut S,
    sink: &mut K,
    wire: &mut W,
    clock: &mut C,
    port: u16,
    turns: u32,
    watch: &T,
) -> Status
    requires port { port ≤ 65000 }
    requires turns { turns ≤ 500000 }
    ensures words { is_words result ≡ false }
    ensures served { (g : Given) → IsGiven g port turns (S.left source.old) (W.arrivals wire.old) (C.moments clock.old)
        → HasServed g (K.held sink.old) (K.held sink.new) (W.sent wire.old) (W.sent wire.new) (W.arrivals wire.new) result }
    ensures whole { (g : Given) → IsGiven g port turns (S.left source.old) (W.arrivals wire.old) (C.moments clock.old) → S.is_steady source.old
        → HasRoom (K.is_steady sink.old) (W.is_steady wire.old) (served_text g).text (served_datagrams g) no_room → IsOrLacksMemory (served_text g).status result }
    ensures unserved { result ≡ BadTrace → (wire.new ≡ wire.old) × (clock.new ≡ clock.old) }
    ensures unread { result ≡ ReadFault → (sink.new ≡ sink.old) × (wire.new ≡ wire.old) × (clock.new ≡ clock.old) }
    ensures cause { IsCausedOverWire (S.faults source.old) (S.faults source.new) (K.faults sink.old) (K.faults sink.new) (W.faults wire.old) (W.faults wire.new) result }
{
    status_of(serve(alloc, source, sink, wire, clock, port, turns, watch))
}

/// Reads a journal as far as it goes, serves so many turns to its channels, and says how that ended.
pub fn takeover_status<S: Source, K: Sink, W: Wire, C: Clock, T: Watch>(
    alloc: Global,
    source: &mut S,
    sink: &mut K,
    wire: &mut W,
    clock: &mut C,
    port: u16,
    turns: u32,
    watch: &T,
) -> Status
    requires port { port ≤ 65000 }
    ensures words { is_words result ≡ false }
    ensures taken { (g : Given) → IsGiven g port turns (S.left source.old) (W.arrivals wire.old) (C.moments clock.old)
        → HasTakenOver g (K.held sink.old) (K.held sink.new) (W.sent wire.old) (W.sent wire.new) (W.arrivals wire.new) result }
    ensures whole { (g : Given) → IsGiven g port turns (S.left source.old) (W.arrivals wire.old) (C.moments clock.old) → S.is_steady source.old
        → HasRoom (K.is_steady sink.old) (W.is_steady wire.old) (taken_text g).text (taken_datagrams g) no_room → IsOrLacksMemory (taken_text g).status result }
    ensures unserved { result ≡ BadTrace → (wire.new ≡ wire.old) × (clock.new ≡ clock.old) }
    ensures unread { result ≡ ReadFault → IfBothTold (S.left source.old) (S.left source.new) (HoldsItsLines (K.held sink.old) (K.held sink.new)) × (wire.new ≡ wire.old) × (clock.new ≡ clock.old) }
    ensures cause { IsCausedOverWire (S.faults source.old) (S.faults source.new) (K.faults sink.old) (K.faults sink.new) (W.faults wire.old) (W.faults wire.new) result }
{
    status_of(take_over(alloc, source, sink, wire, clock, port, turns, watch))
}
