//! What is played, once there is a first number.
ghost use Rattle.std.specs.Prelude.{◌≡◌, Some, IfOk, OnOk, OnErr, IfSome, option_map, option_and_then};
ghost use Rattle.rams_model.specs.Formats.{stripped};
ghost use Rattle.rams_model.specs.Receiver.{or_begun, first_number, came_into, arrived, arrived_by_multicast, presented, after_presenting, join_datagram};
ghost use Rattle.receiver_core.specs.{IsSafe, joining_by, as_shown};

use crate::datagrams::join_datagram;
use crate::lent::Lent;
use crate::numbers::first_number;
use crate::reading::stripped;
use crate::shown::Shown;
use crate::window::Window;
use bumpalo::Bump;
use ram_io::NoMemory;
use rams_model::{MediaCame, Tuned};
use std::alloc::Global;
use wire_packets::rtp_record::Rtp;

/// A retransmission with this sequence number came, of the packet with these low 16 bits. It may fix
/// the first number, and arrives then as any other. After want of memory all is as before.
pub(crate) fn arrive_again<'a>(
    alloc: Global,
    named: Option<u16>,
    play: &mut Option<Window<'a>>,
    sequence: u16,
    low: u16,
    packet: Lent<'a>,
) -> Result<MediaCame, NoMemory>
    requires { IfSome play.old IsSafe }
    ensures came { IfOk result (λ c. c ≡ came_into (or_begun play.old (first_number named sequence low)) low) }
    ensures after { OnOk result (play.new ≡ option_map (arrived low packet.entry) (or_begun play.old (first_number named sequence low))) }
    ensures same { OnErr result (play.new ≡ play.old) }
{
    if let Some(window) = play {
        let n = window.number_of(low);
        return window.arrive(n, packet);
    }
    let Some(first) = first_number(named, sequence, low) else {
        return Ok(MediaCame::BeforeFirst);
    };
    let mut window = Window::new(alloc, first);
    let n = window.number_of(low);
    let came = window.arrive(n, packet)?;
    *play = Some(window);
    Ok(came)
}

/// A packet of the multicast came. Where the receiver joins with it, it is answered with the RAMS-T
/// that says so. After want of memory all is as before.
pub(crate) fn arrive_by_multicast<'a>(
    alloc: Global,
    arena: &'a Bump,
    tuned: &Tuned,
    play: &mut Option<Window<'a>>,
    packet: &Rtp<'a>,
) -> Result<(MediaCame, Option<Vec<u8>>), NoMemory>
    requires { IfSome play.old IsSafe }
    ensures came { IfOk result (λ r. r.0 ≡ came_into play.old packet.now.sequence) }
    ensures join { IfOk result (λ r. option_map (λ v. v.items) r.1 ≡ option_map (join_datagram tuned.now) (joining_by packet.now.sequence play.old)) }
    ensures after { OnOk result (play.new ≡ option_map (arrived_by_multicast packet.now.sequence (stripped packet.now)) play.old) }
    ensures same { OnErr result (play.new ≡ play.old) }
{
    let Some(window) = play else {
        return Ok((MediaCame::BeforeFirst, None));
    };
    let stripped = stripped(alloc, arena, packet)?;
    arrive_and_join(alloc, tuned, window, packet.sequence(), stripped)
}

// A packet of the multicast with these low 16 bits arrives, and the receiver may join with it.
fn arrive_and_join<'a>(
    alloc: Global,
    tuned: &Tuned,
    window: &mut Window<'a>,
    low: u16,
    packet: Lent<'a>,
) -> Result<(MediaCame, Option<Vec<u8>>), NoMemory>
    requires { IsSafe window.old }
    ensures came { IfOk result (λ r. r.0 ≡ came_into (Some window.old) low) }
    ensures join { IfOk result (λ r. option_map (λ v. v.items) r.1 ≡ option_map (join_datagram tuned.now) (joining_by low (Some window.old))) }
    ensures after { OnOk result (window.new ≡ arrived_by_multicast low packet.entry window.old) }
    ensures same { OnErr result (window.new ≡ window.old) }
{
    let n = window.number_of(low);
    let Some(joined) = window.joining(n) else {
        return Ok((window.arrive(n, packet)?, None));
    };
    let text = join_datagram(alloc, tuned, joined)?;
    let came = window.arrive(n, packet)?;
    window.join(joined);
    Ok((came, Some(text)))
}

/// The next packet, presented, where it arrived.
pub(crate) fn present<'a>(play: &mut Option<Window<'a>>) -> Option<Shown<'a>>
    requires { IfSome play.old IsSafe }
    ensures shown { result ≡ option_map as_shown (option_and_then presented play.old) }
    ensures after { play.new ≡ option_map after_presenting play.old }
{
    match play {
        Some(window) => window.present(),
        None => None,
    }
}
