//! What lines are to the order of a trace.
ghost use Rattle.std.specs.Prelude.{◌≡◌};
ghost use Rattle.rams_model.specs.Texts.{kind_of, kind_named, version_spelled, is_event_word, is_receiver_word, has_receivers, has_events, has_one_channel, first_word, words_of};
ghost use Rattle.trace_lines.specs.{shown};

use rams_model::{LineKind, Mode};
use trace_lines::{Line, Words, first_word};

/// Words of a channel line in version 1.
const WORDS_OF_VERSION_1: usize = 34;

/// The kind of a line.
pub fn kind_of(line: &Line<'_>) -> LineKind
    ensures { result ≡ kind_of (shown line.now) }
{
    match line {
        Line::Live { .. } | Line::Feedback { .. } | Line::Tick => LineKind::Event,
        Line::Head { .. } => LineKind::Head,
        Line::Channel { .. } => LineKind::Channel,
        Line::End => LineKind::End,
        Line::Tune { .. }
        | Line::Give { .. }
        | Line::Mcast { .. }
        | Line::Ask { .. }
        | Line::Drop { .. } => LineKind::ReceiverEvent,
    }
}

/// The kind of the lines with this first word.
pub fn kind_named(word: &[u8]) -> Option<LineKind>
    ensures { result ≡ kind_named word.now }
{
    if is_event(word) {
        Some(LineKind::Event)
    } else if word == b"end".as_slice() {
        Some(LineKind::End)
    } else if word == b"channel".as_slice() {
        Some(LineKind::Channel)
    } else if word == b"rams-trace".as_slice() {
        Some(LineKind::Head)
    } else if is_receiver_event(word) {
        Some(LineKind::ReceiverEvent)
    } else {
        None
    }
}

/// The kind that the first word of a line names, whatever stands behind it.
pub fn kind_of_first_word(line: &[u8]) -> Option<LineKind>
    ensures { result ≡ kind_named (first_word line.now) }
{
    kind_named(first_word(line))
}

/// The version that a channel line is spelled in, as its number of words tells.
pub fn version_spelled(line: &[u8]) -> u8
    ensures { result ≡ version_spelled (words_of line.now) }
{
    match Words::of(line).nth(WORDS_OF_VERSION_1) {
        None => 1,
        Some(_) => 2,
    }
}

fn is_event(word: &[u8]) -> bool
    ensures { result ≡ is_event_word word.now }
{
    word == b"live".as_slice() || word == b"fb".as_slice() || word == b"tick".as_slice()
}

fn is_receiver_event(word: &[u8]) -> bool
    ensures { result ≡ is_receiver_word word.now }
{
    word == b"tune".as_slice()
        || word == b"give".as_slice()
        || word == b"mcast".as_slice()
        || word == b"ask".as_slice()
        || word == b"drop".as_slice()
}

/// Whether a trace that is read for this has events.
pub fn has_events(mode: Mode) -> bool
    ensures { result ≡ has_events mode }
{
    !matches!(mode, Mode::Serve | Mode::Describe)
}

/// Whether a trace that is read for this has events of receivers.
pub fn has_receivers(mode: Mode) -> bool
    ensures { result ≡ has_receivers mode }
{
    mode == Mode::Meet
}

/// Whether a trace that is read for this has one channel.
pub fn has_one_channel(mode: Mode) -> bool
    ensures { result ≡ has_one_channel mode }
{
    matches!(mode, Mode::Threads | Mode::Describe)
}
