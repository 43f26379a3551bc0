//! A channel's description, written.
ghost use Rattle.std.specs.Prelude.{◌≡◌, ◌≢◌, ◌<◌, ◌≤◌, ◌+◌, [], ◌∷◌, ◌++◌, Ok, IfOk, OnOk, decimal};
ghost use Rattle.converters.specs.description_loop.sdp_config.{joined_lines, session_lines, media_lines, offer_lines, repair_lines, description, shown_channel, sdp_at};

use itoa::Buffer;
use ram_io::NoMemory;
use rams_model::Channel;
use std::alloc::Global;

/// The description of a channel on 127.0.0.1, its media on this UDP port and its repairs on the next
/// one; it reads back as the channel's settings.
pub fn write_sdp(alloc: Global, channel: &Channel, port: u16) -> Result<Vec<u8>, NoMemory>
    requires low { 1 ≤ port }
    requires high { port ≤ 65000 }
    requires pt { channel.now.pt < 128 }
    requires rtx { channel.now.rtx < 128 }
    requires apart { channel.now.pt ≢ channel.now.rtx }
    ensures text { IfOk result (λ text. text.items ≡ description channel.now port) }
    ensures read { IfOk result (λ text. sdp_at text.items ≡ Ok (shown_channel channel.now)) }
{
    let mut text = Vec::new(alloc);
    put_session(&mut text, channel.id)?;
    put_media(&mut text, port, channel.pt)?;
    put_offers(&mut text, channel.pt, channel.ssrc)?;
    put_repairs(&mut text, port + 1, channel.rtx, channel.pt)?;
    Ok(text)
}

fn put_session(text: &mut Vec<u8>, id: u16) -> Result<(), NoMemory>
    ensures { OnOk result (text.new.items ≡ text.old.items ++ joined_lines (session_lines id)) }
{
    put_line(text, b"v=0")?;
    put_line(text, b"o=- 0 0 IN IP4 127.0.0.1")?;
    put_named(text, b"s=channel ", u64::from(id))?;
    put_line(text, b"t=0 0")
}

fn put_media(text: &mut Vec<u8>, port: u16, pt: u8) -> Result<(), NoMemory>
    ensures { OnOk result (text.new.items ≡ text.old.items ++ joined_lines (media_lines port pt)) }
{
    let pt = u64::from(pt);
    put_pair(text, b"m=video ", u64::from(port), b" RTP/AVPF ", pt)?;
    put_line(text, b"c=IN IP4 127.0.0.1")?;
    put_number(text, b"a=rtpmap:", pt, b" MP2T/90000")
}

fn put_offers(text: &mut Vec<u8>, pt: u8, ssrc: u32) -> Result<(), NoMemory>
    ensures { OnOk result (text.new.items ≡ text.old.items ++ joined_lines (offer_lines pt ssrc)) }
{
    let pt = u64::from(pt);
    put_number(text, b"a=rtcp-fb:", pt, b" nack")?;
    put_number(text, b"a=rtcp-fb:", pt, b" nack rai")?;
    put_number(text, b"a=ssrc:", u64::from(ssrc), b" cname:rams")
}

fn put_repairs(text: &mut Vec<u8>, port: u16, rtx: u8, pt: u8) -> Result<(), NoMemory>
    ensures { OnOk result (text.new.items ≡ text.old.items ++ joined_lines (repair_lines port rtx pt)) }
{
    let rtx = u64::from(rtx);
    put_pair(text, b"m=video ", u64::from(port), b" RTP/AVPF ", rtx)?;
    put_line(text, b"c=IN IP4 127.0.0.1")?;
    put_number(text, b"a=rtpmap:", rtx, b" rtx/90000")?;
    put_pair(text, b"a=fmtp:", rtx, b" apt=", u64::from(pt))
}

// A line and its end.
fn put_line(text: &mut Vec<u8>, line: &[u8]) -> Result<(), NoMemory>
    ensures { OnOk result (text.new.items ≡ text.old.items ++ joined_lines (line.now ∷ [])) }
{
    text.extend_from_slice(line)?;
    text.extend_from_slice(b"\r\n")?;
    Ok(())
}

// A line of a number between two texts.
fn put_number(text: &mut Vec<u8>, front: &[u8], n: u64, behind: &[u8]) -> Result<(), NoMemory>
    ensures { OnOk result (text.new.items ≡ text.old.items ++ joined_lines ((front.now ++ decimal n ++ behind.now) ∷ [])) }
{
    let mut digits = Buffer::new();
    text.extend_from_slice(front)?;
    text.extend_from_slice(digits.format(n).as_bytes())?;
    put_line(text, behind)
}

// A line of two numbers, each behind a text.
fn put_pair(
    text: &mut Vec<u8>,
    front: &[u8],
    n: u64,
    between: &[u8],
    m: u64,
) -> Result<(), NoMemory>
    ensures { OnOk result (text.new.items ≡ text.old.items ++ joined_lines ((front.now ++ decimal n ++ between.now ++ decimal m) ∷ [])) }
{
    let mut digits = Buffer::new();
    text.extend_from_slice(front)?;
    text.extend_from_slice(digits.format(n).as_bytes())?;
    put_named(text, between, m)
}

// A line of a number behind a text.
fn put_named(text: &mut Vec<u8>, front: &[u8], n: u64) -> Result<(), NoMemory>
    ensures { OnOk result (text.new.items ≡ text.old.items ++ joined_lines ((front.now ++ decimal n) ∷ [])) }
{
    let mut digits = Buffer::new();
    text.extend_from_slice(front)?;
    text.extend_from_slice(digits.format(n).as_bytes())?;
    put_line(text, b"")
}
