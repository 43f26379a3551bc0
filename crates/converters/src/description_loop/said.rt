//! What the lines of a head say.
ghost use Rattle.std.specs.Prelude.{◌≡◌, Ok};
ghost use Rattle.rams_model.specs.Texts.{Reached, tick_of};
ghost use Rattle.trace_lines.specs.{shown};
ghost use Rattle.trace_text.specs.{told, IsOther, IsSettled};
ghost use Rattle.converters.specs.description_loop.{Says, SaysOf, said_fault};

use channel_config::Config;
use rams_model::LineFault;
use trace_text::{Judged, Line, State};

/// What a line says to a head.
#[derive(Clone, Copy, PartialEq, Eq)]
pub enum Said {
    /// The version of the text, and the bytes per tick of all channels together.
    Head { version: u8, link: u64 },
    Channel(Config),
    End,
    /// It is a line of a trace, and none of a head.
    Other,
    Refused(LineFault),
}

/// What a head says.
#[derive(Clone, Copy, PartialEq, Eq)]
pub struct Heading {
    /// The version of the text: 1 or 2.
    pub version: u8,
    /// The bytes per tick of all channels together.
    pub link: u64,
    /// The settings of its channel, and the length of a tick.
    pub config: Config,
}

/// What was read of a head.
#[derive(Clone, Copy, PartialEq, Eq)]
pub enum Head {
    Lawful(Heading),
    /// The line of this number is refused.
    Unlawful { line: u64, fault: LineFault },
}

/// What the next line says.
pub fn judge_line(state: &mut State, line: &[u8]) -> Said
    ensures { Says state.old line.now state.new result }
{
    match state.judge(line) {
        Ok(read) => said_so(&read),
        Err(fault) => Said::Refused(fault),
    }
}

/// What a line says that may come.
fn said_so(read: &Judged<'_>) -> Said
    ensures { (now : Reached) → IsSettled (tick_of now.head) read.now → SaysOf (Ok (told read.now, now)) now result }
{
    match read {
        Judged::Channel { config, .. } => Said::Channel(*config),
        Judged::Other(line) => said_otherwise(*line),
    }
}

/// What a line says that opens no channel.
fn said_otherwise(line: Line<'_>) -> Said
    ensures { (now : Reached) → IsOther line.entry → SaysOf (Ok (shown line.entry, now)) now result }
{
    match line {
        Line::Head { version, link, .. } => Said::Head { version, link },
        Line::End => Said::End,
        _ => Said::Other,
    }
}

/// Why a line is refused that may not stand where it does.
pub fn fault_of(said: Said) -> LineFault
    ensures { result ≡ said_fault said }
{
    match said {
        Said::Refused(fault) => fault,
        _ => LineFault::Order,
    }
}
