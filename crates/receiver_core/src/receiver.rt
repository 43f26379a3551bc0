//! The receiver.
use crate::asking::ask_in_play;
use crate::datagrams::{bye_datagram, request_datagram};
use crate::lent::Lent;
use crate::numbers::distance_from;
use crate::playing::{arrive_again, arrive_by_multicast, present};
use crate::reading::{
    number_brought, original_of, read_again, read_multicast, read_told, spell_again, tells_of_burst,
};
use crate::shown::Shown;
use crate::window::Window;
use bumpalo::Bump;
use ram_io::NoMemory;
use rams_model::response::{ACCEPTED, BURST_LOST, COMPLETED};
use rams_model::{Info, InfoCame, MediaCame, Octets, Tuned};
use std::alloc::Global;
use std::marker::Model;

/// A receiver of one channel. The packets that wait to be presented are lent by an arena.
#[derive(Drop)]
pub struct Receiver<'a> {
    tuned: Tuned,
    /// The sequence number with which the burst begins, of the RAMS-I that was taken.
    named: Option<u16>,
    /// The end of the burst was told after that.
    ended: bool,
    /// What is played, once the first number is fixed.
    play: Option<Window<'a>>,
}

impl<'a> Model for Receiver<'a> {
    ghost use Rattle.std.specs.Prelude.{◌<◌, ◌^◌, IfSome};
    ghost use Rattle.receiver_core.specs.States.{Seen, IsBounded};

    ghost Value = { Seen };

    ghost view = { λ r. record { tuned = r.tuned; got = record { named = r.named; ended = r.ended; play = r.play } } };

    ghost invariant = { λ r. record {
      media : r.tuned.pt < 128;
      again : r.tuned.rtx < 128;
      play : IfSome r.play (IsBounded (2 ^ 40));
    } };
}

impl<'a> Receiver<'a> {
    ghost use Rattle.std.specs.Prelude.{◌≡◌, ◌+◌, ◌<◌, ◌≤◌, ◌^◌, option_map, IfOk, IfErr, IfSome, OnOk, OnErr};
    ghost use Rattle.rams_model.specs.Formats.{packet_at};
    ghost use Rattle.rams_model.specs.Service.{sent_again};
    ghost use Rattle.rams_model.specs.Receiver.{told_by, again, brought_again, brought_by_multicast, after_told, after_media, told_answer, media_answer, join_answer, shown_now, after_shown, asked, request_datagram, join_datagram, bye_datagram};
    ghost use Rattle.receiver_core.specs.{just_tuned, with_got, reach, as_shown, distance_of};

    /// A receiver that has got nothing, and the datagram by which it asks for a burst: a RAMS-R (RFC
    /// 6285, 7.2) behind a report and its name. Payload types are below 128.
    pub fn tune(alloc: Global, t: Tuned) -> Result<(Receiver<'a>, Vec<u8>), NoMemory>
        requires media { t.pt < 128 }
        requires again { t.rtx < 128 }
        ensures receiver { IfOk result (λ r. r.0 ≡ just_tuned t) }
        ensures datagram { IfOk result (λ r. r.1.items ≡ request_datagram t) }
    {
        let text = request_datagram(alloc, &t)?;
        let receiver = Receiver {
            tuned: t,
            named: None,
            ended: false,
            play: None,
        };
        Ok((receiver, text))
    }

    /// What becomes of a datagram of feedback. Of several RAMS-I (RFC 6285, 7.3) in it the first
    /// counts.
    pub fn info(&mut self, bytes: &[u8]) -> InfoCame
        ensures came { result ≡ told_answer (told_by self.old.tuned bytes.now) self.old.got }
        ensures after { self.new ≡ with_got (after_told (told_by self.old.tuned bytes.now) self.old.got) self.old }
        ensures reach { reach self.new ≡ reach self.old }
    {
        let info = match read_told(&self.tuned, bytes) {
            Ok(info) => info,
            Err(came) => return came,
        };
        let came = info_came(self.named, &info);
        match came {
            InfoCame::Taken => self.named = info.first,
            InfoCame::Ended(_) => self.ended = true,
            _ => (),
        }
        came
    }

    /// What becomes of a datagram of the retransmission session (RFC 4588, 4). After want of memory
    /// all is as before.
    pub fn rtx(
        &mut self,
        alloc: Global,
        arena: &'a Bump,
        bytes: &[u8],
    ) -> Result<MediaCame, NoMemory>
        requires few { reach self.old < 2 ^ 40 }
        ensures came { IfOk result (λ c. c ≡ media_answer (brought_again self.old.tuned bytes.now) self.old.got) }
        ensures after { OnOk result (self.new ≡ with_got (after_media (brought_again self.old.tuned bytes.now) self.old.got) self.old) }
        ensures few { reach self.new ≤ reach self.old + 1 }
        ensures same { OnErr result (self.new ≡ self.old) }
    {
        let packet = match read_again(&self.tuned, bytes) {
            Ok(packet) => packet,
            Err(came) => return Ok(came),
        };
        let (low, original) = original_of(alloc, arena, &packet, self.tuned.pt)?;
        self.come(alloc, packet.sequence(), low, original)
    }

    /// What becomes of the retransmission of a packet under this payload type, below 128, and sequence
    /// number: what `rtx` says of its bytes (RFC 4588, 4). Where it brings the packet again byte for byte
    /// it isn't spelled, and what waits is the packet as it is lent. After want of memory all is as before.
    pub fn again(
        &mut self,
        alloc: Global,
        arena: &'a Bump,
        packet: &'a [u8],
        payload_type: u8,
        sequence: u16,
    ) -> Result<MediaCame, NoMemory>
        requires kind { payload_type < 128 }
        requires few { reach self.old < 2 ^ 40 }
        ensures came { IfOk result (λ c. c ≡ media_answer (brought_again self.old.tuned (sent_again payload_type sequence (packet_at packet.now))) self.old.got) }
        ensures after { OnOk result (self.new ≡ with_got (after_media (brought_again self.old.tuned (sent_again payload_type sequence (packet_at packet.now))) self.old.got) self.old) }
        ensures few { reach self.new ≤ reach self.old + 1 }
        ensures same { OnErr result (self.new ≡ self.old) }
    {
        let Some(low) = number_brought(&self.tuned, packet, payload_type) else {
            let bytes = spell_again(alloc, packet, payload_type, sequence)?;
            return self.rtx(alloc, arena, &bytes);
        };
        self.come(alloc, sequence, low, Lent::of(packet))
    }

    // A retransmission with this sequence number comes, of the packet with these low 16 bits. After want
    // of memory all is as before.
    fn come(
        &mut self,
        alloc: Global,
        sequence: u16,
        low: u16,
        packet: Lent<'a>,
    ) -> Result<MediaCame, NoMemory>
        requires few { reach self.old < 2 ^ 40 }
        ensures came { IfOk result (λ c. c ≡ media_answer (again sequence low packet.entry) self.old.got) }
        ensures after { OnOk result (self.new ≡ with_got (after_media (again sequence low packet.entry) self.old.got) self.old) }
        ensures few { reach self.new ≤ reach self.old + 1 }
        ensures same { OnErr result (self.new ≡ self.old) }
    {
        let came = arrive_again(alloc, self.named, &mut self.play, sequence, low, packet)?;
        Ok(came)
    }

    /// What becomes of a packet of the multicast, and the RAMS-T (RFC 6285, 7.4) where the receiver
    /// joins with it. After want of memory all is as before.
    pub fn multicast(
        &mut self,
        alloc: Global,
        arena: &'a Bump,
        bytes: &'a [u8],
    ) -> Result<(MediaCame, Option<Vec<u8>>), NoMemory>
        requires few { reach self.old < 2 ^ 40 }
        ensures came { IfOk result (λ r. r.0 ≡ media_answer (brought_by_multicast self.old.tuned bytes.now) self.old.got) }
        ensures join { IfOk result (λ r. option_map (λ v. v.items) r.1
            ≡ option_map (join_datagram self.old.tuned) (join_answer (brought_by_multicast self.old.tuned bytes.now) self.old.got)) }
        ensures after { OnOk result (self.new ≡ with_got (after_media (brought_by_multicast self.old.tuned bytes.now) self.old.got) self.old) }
        ensures few { reach self.new ≤ reach self.old + 1 }
        ensures same { OnErr result (self.new ≡ self.old) }
    {
        let packet = match read_multicast(&self.tuned, bytes) {
            Ok(packet) => packet,
            Err(came) => return Ok((came, None)),
        };
        let answer = arrive_by_multicast(alloc, arena, &self.tuned, &mut self.play, &packet)?;
        Ok(answer)
    }

    /// The datagrams by which the receiver asks: for the burst, until it is told of one; then for its
    /// end, where the receiver joined and doesn't know of the end, and for what is missing.
    pub fn ask(&self, alloc: Global) -> Result<Vec<Octets>, NoMemory>
        ensures { IfOk result (λ v. v.items ≡ asked self.now.tuned self.now.got) }
    {
        if self.named.is_none() {
            let mut datagrams = Vec::new(alloc);
            datagrams.push(Octets::of(request_datagram(alloc, &self.tuned)?))?;
            return Ok(datagrams);
        }
        match &self.play {
            Some(window) => ask_in_play(alloc, &self.tuned, self.ended, window),
            None => Ok(Vec::new(alloc)),
        }
    }

    /// The next packet, presented; `None` exactly where the first number isn't fixed, or the next
    /// number didn't arrive.
    pub fn present(&mut self) -> Option<Shown<'a>>
        ensures shown { result ≡ option_map as_shown (shown_now self.old.got) }
        ensures after { self.new ≡ with_got (after_shown self.old.got) self.old }
        ensures reach { reach self.new ≡ reach self.old }
    {
        present(&mut self.play)
    }

    /// The receiver leaves: its BYE (RFC 3550, 6.6). After want of memory it is handed back.
    pub fn leave(self, alloc: Global) -> Result<Vec<u8>, (Receiver<'a>, NoMemory)>
        ensures datagram { IfOk result (λ v. v.items ≡ bye_datagram self.entry.tuned) }
        ensures back { IfErr result (λ e. e.0 ≡ self.entry) }
    {
        match bye_datagram(alloc, &self.tuned) {
            Ok(text) => Ok(text),
            Err(e) => Err((self, e)),
        }
    }

    /// How far a retransmission is ahead of the one with which the burst begins, where a burst was told
    /// of and that is less than the room. Where no first number is fixed, such a packet fixes it.
    pub fn distance(&self, bytes: &[u8]) -> Option<u64>
        ensures value { result ≡ distance_of (brought_again self.now.tuned bytes.now) self.now.got }
        ensures few { IfSome result (λ d. d < 16384) }
    {
        match read_again(&self.tuned, bytes) {
            Ok(packet) => distance_from(self.named, packet.sequence()),
            Err(_) => None,
        }
    }

    /// The number that is presented next; `None` exactly until the first number is fixed.
    pub fn next(&self) -> Option<u64>
        ensures { result ≡ option_map (λ p. p.next) self.now.got.play }
    {
        match &self.play {
            Some(window) => Some(window.next()),
            None => None,
        }
    }

    /// The first number of all; `None` exactly until it is fixed.
    pub fn first(&self) -> Option<u64>
        ensures { result ≡ option_map (λ p. p.first) self.now.got.play }
    {
        match &self.play {
            Some(window) => Some(window.first()),
            None => None,
        }
    }
}

ghost use Rattle.std.specs.Prelude.{◌≡◌};
ghost use Rattle.rams_model.specs.Receiver.{info_came};
ghost use Rattle.receiver_core.specs.{named_alone};

// What a RAMS-I is to a receiver that took one with this first sequence number, or none.
fn info_came(named: Option<u16>, info: &Info) -> InfoCame
    ensures { result ≡ info_came (named_alone named) info.now }
{
    if tells_of_burst(info) {
        return match named {
            None => InfoCame::Taken,
            Some(_) if info.code == ACCEPTED => InfoCame::Repeated,
            Some(_) => InfoCame::Updated,
        };
    }
    if named.is_some() && (info.code == COMPLETED || info.code == BURST_LOST) {
        return InfoCame::Ended(info.code);
    }
    InfoCame::Refused(info.code)
}
