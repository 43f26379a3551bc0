//! What is written in the end, and with what status.
ghost use Rattle.std.specs.Prelude.{◌≡◌, ◌≤◌, ◌++◌, IfOk, OnOk, codes};
ghost use Rattle.rams_model.specs.declared.Status.TheVariants.{Done, BadSdp};
ghost use Rattle.rams_model.specs.Texts.{line_text};
ghost use Rattle.trace_lines.specs.{shown};
ghost use Rattle.converters.specs.description_loop.sdp_config.{sdp_at};
ghost use Rattle.trace_loop.specs.trace_book.trace_serving.{ended, refused};
ghost use Rattle.trace_loop.specs.head_loop.{with_feed};
ghost use Rattle.converters.specs.description_loop.{answered, described_by, fault_line, heading_text, said_by, settings_by, with_sdp, with_settings, IsReplyEnd};

use crate::description_loop::said::Heading;
use crate::description_loop::sdp_config::{Sdp, SdpFault, read_sdp, write_sdp};
use book_text::{append_count, append_refused};
use ram_io::NoMemory;
use rams_model::{Channel, LineFault, Status};
use std::alloc::Global;
use trace_text::{Line, append_line};

/// The whole text that a command writes, and the status with which it ends.
#[derive(Drop)]
pub struct Reply {
    pub status: Status,
    pub text: Vec<u8>,
}

/// A line of the head is refused.
pub fn refused_reply(alloc: Global, line: u64, fault: LineFault) -> Result<Reply, NoMemory>
    ensures answers { IfOk result (λ reply. answered reply ≡ refused line fault) }
    ensures ends { IfOk result (λ reply. IsReplyEnd reply.status) }
{
    let mut text = Vec::new(alloc);
    append_refused(&mut text, line, fault)?;
    Ok(Reply {
        status: Status::BadTrace,
        text,
    })
}

/// What `sdp` answers to this head and this description.
pub fn settings_reply(alloc: Global, heading: &Heading, text: &[u8]) -> Result<Reply, NoMemory>
    ensures answers { IfOk result (λ reply. answered reply ≡ settings_by (said_by heading.now) (sdp_at text.now)) }
    ensures ends { IfOk result (λ reply. IsReplyEnd reply.status) }
{
    match read_sdp(text) {
        Ok(sdp) => trace_reply(alloc, heading, sdp),
        Err(fault) => fault_reply(alloc, fault),
    }
}

/// What `describe` answers to this head.
pub fn description_reply(alloc: Global, heading: &Heading, port: u16) -> Result<Reply, NoMemory>
    requires low { 1 ≤ port }
    requires high { port ≤ 65000 }
    ensures answers { IfOk result (λ reply. answered reply ≡ described_by port (said_by heading.now)) }
    ensures ends { IfOk result (λ reply. IsReplyEnd reply.status) }
{
    Ok(Reply {
        status: Status::Done,
        text: write_sdp(alloc, heading.config.channel(), port)?,
    })
}

/// The channel with the settings of its description.
fn with_settings(channel: &Channel, sdp: Sdp) -> Channel
    ensures { result ≡ with_settings sdp channel.now }
{
    Channel {
        pt: sdp.pt,
        rtx: sdp.rtx,
        ssrc: sdp.ssrc,
        ..*channel
    }
}

/// The three lines of the head, its channel with these settings.
fn trace_reply(alloc: Global, heading: &Heading, sdp: Sdp) -> Result<Reply, NoMemory>
    ensures answers { IfOk result (λ reply. answered reply ≡ ended Done (heading_text (with_sdp sdp (said_by heading.now)))) }
    ensures ends { IfOk result (λ reply. IsReplyEnd reply.status) }
{
    let version = heading.version;
    let mut text = Vec::new(alloc);
    append_fed(
        &mut text,
        &Line::Head {
            version,
            tick_ms: heading.config.tick_ms(),
            link: heading.link,
        },
    )?;
    append_fed(
        &mut text,
        &Line::Channel {
            version,
            channel: with_settings(heading.config.channel(), sdp),
        },
    )?;
    append_fed(&mut text, &Line::End)?;
    Ok(Reply {
        status: Status::Done,
        text,
    })
}

/// Appends a line and its line feed.
fn append_fed(text: &mut Vec<u8>, line: &Line<'_>) -> Result<(), NoMemory>
    ensures { OnOk result (text.new.items ≡ text.old.items ++ with_feed (line_text (shown line.now))) }
{
    append_line(text, line)?;
    text.push(b'\n')?;
    Ok(())
}

/// The description is refused.
fn fault_reply(alloc: Global, fault: SdpFault) -> Result<Reply, NoMemory>
    ensures answers { IfOk result (λ reply. answered reply ≡ ended BadSdp (fault_line fault)) }
    ensures ends { IfOk result (λ reply. IsReplyEnd reply.status) }
{
    let mut text = Vec::new(alloc);
    append_fault(&mut text, fault)?;
    Ok(Reply {
        status: Status::BadSdp,
        text,
    })
}

/// Appends the line that says why a description is refused: `refused-sdp form 3`, or with a word alone.
fn append_fault(text: &mut Vec<u8>, fault: SdpFault) -> Result<(), NoMemory>
    ensures { OnOk result (text.new.items ≡ text.old.items ++ fault_line fault) }
{
    text.extend_from_slice(b"refused-sdp ")?;
    match fault {
        SdpFault::Form(line) => append_count(text, b"form", u64::from(line)),
        SdpFault::Version => append_word(text, b"version"),
        SdpFault::Long => append_word(text, b"long"),
        SdpFault::NoChannel => append_word(text, b"no-channel"),
        SdpFault::NoSsrc => append_word(text, b"no-ssrc"),
        SdpFault::NoRtx => append_word(text, b"no-rtx"),
        SdpFault::Same => append_word(text, b"same"),
    }
}

/// Appends a word and a line feed.
fn append_word(text: &mut Vec<u8>, word: &[u8]) -> Result<(), NoMemory>
    ensures { OnOk result (text.new.items ≡ text.old.items ++ (word.now ++ codes "\n")) }
{
    text.extend_from_slice(word)?;
    text.push(b'\n')?;
    Ok(())
}
