//! The head of a trace: the lines that open its channels.
ghost use Rattle.std.specs.Prelude.{◌≡◌, ◌+◌, ℕ, List, [], Some, Err, true, IfOk, OnOk, IsSomeAnd};
ghost use Rattle.std.specs.Io.KnownBytes.{Keeps, prepend_known};
ghost use Rattle.line_io.specs.{HasNoFeed};
ghost use Rattle.rams_model.specs.Texts.{Reached, tick_of, may_come, end_line};
ghost use Rattle.trace_loop.specs.journal_book.{starting};
ghost use Rattle.rams_model.specs.declared.Mode.TheVariants.{Serve};
ghost use Rattle.trace_lines.specs.{shown};
ghost use Rattle.trace_text.specs.{told, IsOther, IsSettled};
ghost use Rattle.server_hub.specs.Served.{Served};
ghost use Rattle.trace_loop.specs.trace_book.trace_serving.{Stage, turn, after_line, brought};
ghost use Rattle.trace_loop.specs.declared.stop.Stop.TheVariants.{Read};
ghost use Rattle.trace_loop.specs.{IfBothTold, IfTold, IsStoppedByRead, OnlyMemoryStops};
ghost use Rattle.trace_loop.specs.trace_book.{run};
ghost use Rattle.trace_loop.specs.head_loop.{CanOpen, Comes, Grows, HasOpened, HasOpenedBy, HasOpenedSome, HasRead, IsCutBefore, IsFirstLine, IsIdle, LeavesBehind, OpensIn, StandsAfter, Took};

use crate::Stop;
use channel_config::Config;
use line_io::{LineReader, Next};
use ram_io::{NoMemory, Source};
use rams_model::LineFault;
use server_hub::Hub;
use std::alloc::Global;
use trace_text::{Judged, Line, Mode, State};

/// What the lines of a head open.
#[derive(Drop)]
pub struct Opened {
    pub hub: Hub,
    /// The numbers of the channels, in the order of their lines.
    pub ids: Vec<u16>,
    /// The lines, each with its line feed.
    pub text: Vec<u8>,
}

/// What was read of a trace.
#[derive(Drop)]
pub enum Head {
    /// A head, up to its `end`.
    Lawful(Opened),
    /// The line of this number is refused.
    Unlawful { line: u64, fault: LineFault },
}

/// What a line of a head does.
#[derive(Clone, Copy, PartialEq, Eq)]
pub enum HeadLine {
    GoesOn,
    /// It is `end`.
    Ends,
    Refused(LineFault),
}

/// What the lines so far opened.
#[derive(Drop)]
struct Opening {
    hub: Option<Hub>,
    ids: Vec<u16>,
    state: State,
    text: Vec<u8>,
}

/// Before the first line.
fn new_opening(alloc: Global) -> Opening
    ensures opened { HasOpenedBy result.hub result.ids.items result.state (starting Serve) }
    ensures text { result.text.items ≡ [] }
{
    Opening {
        hub: None,
        ids: Vec::new(alloc),
        state: State::new(Mode::Serve),
        text: Vec::new(alloc),
    }
}

/// A channel line opens its channel. The lines before it have shown that it may stand there, so that
/// only memory can be missing.
fn open(alloc: Global, hub: &mut Option<Hub>, config: Config) -> Result<(), NoMemory>
    requires { IsSomeAnd hub.old (λ v. CanOpen v config) }
    ensures { OnOk result (OpensIn config hub.old hub.new) }
{
    let Some(hub) = hub else { unreachable!() };
    hub.add(alloc, config).or(Err(NoMemory))
}

/// What a line does that may come and opens no channel.
fn after_other(alloc: Global, hub: &mut Option<Hub>, line: Line<'_>) -> Result<HeadLine, NoMemory>
    requires other { IsOther line }
    requires comes { (stage : Stage (List Served)) × (ids : List ℕ) × (reached : Reached) × Comes hub.old ids reached (shown line) stage }
    ensures { IfOk result (λ did. (stage : Stage (List Served)) (ids : List ℕ) (reached : Reached) (number : ℕ) → Comes hub.old ids reached (shown line.entry) stage
        → Took stage (after_line run stage reached (shown line.entry) (brought run (shown line.entry))) hub.new ids reached number did) }
{
    match line {
        Line::Head { tick_ms, link, .. } => {
            *hub = Some(Hub::new(alloc, tick_ms, link)?);
            Ok(HeadLine::GoesOn)
        }
        Line::End => Ok(HeadLine::Ends),
        // No head has another line, and a channel line is none of the others.
        _ => Ok(HeadLine::Refused(LineFault::Order)),
    }
}

/// What a line does that may come.
fn after_line(alloc: Global, opening: &mut Opening, line: &Judged<'_>) -> Result<HeadLine, NoMemory>
    requires settled { IsSettled (tick_of opening.old.state.head) line.now }
    requires comes { (stage : Stage (List Served)) × Comes opening.old.hub opening.old.ids.items opening.old.state (told line.now) stage }
    ensures took { IfOk result (λ did. (stage : Stage (List Served)) (number : ℕ) → Comes opening.old.hub opening.old.ids.items opening.old.state (told line.now) stage
        → Took stage (after_line run stage opening.old.state (told line.now) (brought run (told line.now))) opening.new.hub opening.new.ids.items opening.new.state number did) }
    ensures text { opening.new.text ≡ opening.old.text }
{
    match line {
        Judged::Channel { config, .. } => {
            open(alloc, &mut opening.hub, *config)?;
            opening.ids.push(config.channel().id)?;
            Ok(HeadLine::GoesOn)
        }
        Judged::Other(line) => after_other(alloc, &mut opening.hub, *line),
    }
}

/// What the next line does.
fn judge_line(alloc: Global, opening: &mut Opening, line: &[u8]) -> Result<HeadLine, NoMemory>
    requires { HasOpenedSome opening.old.hub opening.old.ids.items opening.old.state }
    ensures took { IfOk result (λ did. (stage : Stage (List Served)) (number : ℕ) → HasOpenedBy opening.old.hub opening.old.ids.items opening.old.state stage
        → Took stage (turn run stage number line.now) opening.new.hub opening.new.ids.items opening.new.state number did) }
    ensures text { opening.new.text ≡ opening.old.text }
{
    match opening.state.judge(line) {
        Ok(read) => after_line(alloc, opening, &read),
        Err(fault) => Ok(HeadLine::Refused(fault)),
    }
}

/// The same, with the line at the end of the text where it goes on.
fn take_line(alloc: Global, opening: &mut Opening, line: &[u8]) -> Result<HeadLine, NoMemory>
    requires { HasOpenedSome opening.old.hub opening.old.ids.items opening.old.state }
    ensures took { IfOk result (λ did. (stage : Stage (List Served)) (number : ℕ) → HasOpenedBy opening.old.hub opening.old.ids.items opening.old.state stage
        → Took stage (turn run stage number line.now) opening.new.hub opening.new.ids.items opening.new.state number did) }
    ensures text { IfOk result (λ did. Grows did opening.old.text.items opening.new.text.items line.now) }
{
    match judge_line(alloc, opening, line)? {
        HeadLine::GoesOn => {
            opening.text.extend_from_slice(line)?;
            opening.text.push(b'\n')?;
            Ok(HeadLine::GoesOn)
        }
        HeadLine::Ends => Ok(HeadLine::Ends),
        HeadLine::Refused(fault) => Ok(HeadLine::Refused(fault)),
    }
}

/// What the next line does. Of a line that is too long the front tells; one that is missing is out of
/// order.
fn next_line<S: Source>(
    alloc: Global,
    reader: &mut LineReader,
    opening: &mut Opening,
    source: &mut S,
) -> Result<HeadLine, Stop>
    requires { HasOpenedSome opening.old.hub opening.old.ids.items opening.old.state }
    ensures line { IfOk result (λ did. (stage : Stage (List Served)) (number : ℕ) → HasOpenedBy opening.old.hub opening.old.ids.items opening.old.state stage
        → IfBothTold (prepend_known reader.old.kept (S.left source.old)) (prepend_known reader.new.kept (S.left source.new))
        (λ xs ys. IsFirstLine stage number xs opening.new.hub opening.new.ids.items opening.new.state opening.old.text.items opening.new.text.items did ys)) }
    ensures stands { IfOk result (λ did. StandsAfter did opening.new.hub opening.new.ids.items opening.new.state) }
    ensures same { result ≡ Err Read → Keeps
        (prepend_known reader.old.kept (S.left source.old))
        (prepend_known reader.new.kept (S.left source.new)) }
    ensures unread { result ≡ Err Read → HasNoFeed reader.new.kept }
    ensures cause { IsStoppedByRead (S.faults source.old) (S.faults source.new) result }
    ensures steady { S.is_steady source.old → OnlyMemoryStops result (S.is_steady source.new) }
{
    match reader.advance(source) {
        Err(_) => Err(Stop::Read),
        Ok(Next::Line) => Ok(take_line(alloc, opening, reader.line())?),
        Ok(Next::Long) => Ok(take_line(alloc, opening, reader.line())?),
        Ok(Next::End) => Ok(HeadLine::Refused(LineFault::Order)),
    }
}

/// What the whole head opened.
fn finish(opening: Opening) -> Opened
    requires { (stage : Stage (List Served)) × HasOpened opening.hub opening.ids.items stage × (may_come stage.reached end_line ≡ true) }
    ensures hub { Some result.hub ≡ opening.hub }
    ensures ids { result.ids.items ≡ opening.ids.items }
    ensures text { result.text.items ≡ opening.text.items }
{
    let Opening { hub, ids, text, .. } = opening;
    let Some(hub) = hub else { unreachable!() };
    Opened { hub, ids, text }
}

/// Reads a head up to its `end`, or up to the first line that is refused. What follows `end` is left: a
/// front of it is kept by the reader, and the rest stands in the source.
pub fn read_head<S: Source>(
    alloc: Global,
    reader: &mut LineReader,
    source: &mut S,
) -> Result<Head, Stop>
    ensures read { IfOk result (λ head. IfTold (prepend_known reader.old.kept (S.left source.old)) (λ xs. HasRead xs head)) }
    ensures left { IfOk result (λ head. IfBothTold (prepend_known reader.old.kept (S.left source.old)) (prepend_known reader.new.kept (S.left source.new)) (LeavesBehind head)) }
    ensures cut { result ≡ Err Read → IfBothTold (prepend_known reader.old.kept (S.left source.old)) (S.left source.new) IsCutBefore }
    ensures idle { IfOk result IsIdle }
    ensures cause { IsStoppedByRead (S.faults source.old) (S.faults source.new) result }
    ensures steady { S.is_steady source.old → OnlyMemoryStops result (S.is_steady source.new) }
{
    let mut opening = new_opening(alloc);
    for number in 1..u64::MAX {
        match next_line(alloc, reader, &mut opening, source)? {
            HeadLine::GoesOn => {}
            HeadLine::Ends => return Ok(Head::Lawful(finish(opening))),
            HeadLine::Refused(fault) => {
                return Ok(Head::Unlawful {
                    line: number,
                    fault,
                });
            }
        }
    }
    Err(Stop::Memory)
}
