//! What `serve` and `pcap` tell their operator on standard error.
use ram_io::Gate;
use rams_model::{LineFault, Note, Status};
use rams_replay::{CaptureFault, CaptureWatch, FileKind, Watch};
use server_hub::{At, Heard, HubAnswer};
use std::alloc::Global;
use std::collections::{BTreeMap, BTreeSet};
use std::sync::{Mutex, Wait};

/// How often each thing came about.
#[derive(Drop)]
struct Totals {
    live: u64,
    feedback: u64,
    sent: u64,
    bursts: u64,
    repairs: u64,
    ticks: u64,
    late: u64,
    /// By response code (RFC 6285, 7.3).
    refusals: BTreeMap<u16, u64>,
    /// The addresses from which feedback came.
    clients: BTreeSet<u64>,
}

impl Totals {
    fn new(alloc: Global) -> Totals {
        Totals {
            live: 0,
            feedback: 0,
            sent: 0,
            bursts: 0,
            repairs: 0,
            ticks: 0,
            late: 0,
            refusals: BTreeMap::new(alloc),
            clients: BTreeSet::new(alloc),
        }
    }

    fn hear(&mut self, heard: Heard<'_>) {
        match heard {
            Heard::Live { .. } => self.live = self.live.saturating_add(1),
            Heard::Feedback { client, .. } => {
                self.feedback = self.feedback.saturating_add(1);
                // Where there is no memory for it, a client isn't told of.
                let _ = self.clients.insert(client);
            }
            Heard::Tick => self.ticks = self.ticks.saturating_add(1),
        }
    }

    fn answer(&mut self, at: &At) {
        self.sent = self.sent.saturating_add(at.answer.orders.len() as u64);
        for note in at.answer.notes.iter() {
            self.note(note);
        }
    }

    fn note(&mut self, note: &Note) {
        match note {
            Note::Accept { .. } => self.bursts = self.bursts.saturating_add(1),
            Note::Repair { .. } => self.repairs = self.repairs.saturating_add(1),
            Note::Refuse { code, .. } => self.refuse(*code),
            _ => {}
        }
    }

    fn refuse(&mut self, code: u16) {
        if let Some(count) = self.refusals.get_mut(&code) {
            *count = count.saturating_add(1);
            return;
        }
        let _ = self.refusals.insert(code, 1);
    }
}

/// What puts an Ethernet header in front of each packet of a file of raw IP, up to the file's name.
const TO_ETHERNET: &str =
    "tcprewrite --dlt=user --user-dlt=1 --user-dlink=2,0,0,0,0,2,2,0,0,0,0,1,8,0 -i";

/// Tells of a server's ports as it begins, and counts what comes and goes; or of a capture that is refused.
#[derive(Drop)]
pub struct Report<'a, R> {
    rt: &'a R,
    totals: Mutex<Totals>,
}

impl<'a, R: Wait + Eprint> Report<'a, R> {
    pub fn new(rt: &'a R, alloc: Global) -> Report<'a, R> {
        Report {
            rt,
            totals: Mutex::new(Totals::new(alloc)),
        }
    }

    /// Tells what a server did that has ended so; nothing of one whose head was refused. `failed` is the
    /// port at which its wire failed, if it was one.
    pub fn tell_end(&self, status: Status, failed: Option<u16>) {
        match status {
            Status::BadTrace => {}
            Status::WireFault => {
                self.tell_failed(failed);
                self.tell_totals();
            }
            _ => self.tell_totals(),
        }
    }

    /// The line of a network that failed.
    fn tell_failed(&self, failed: Option<u16>) {
        let _ = match failed {
            Some(port) => eprint!(self.rt; "rams-replay: the network failed at port {port}"),
            None => eprint!(self.rt; "rams-replay: the network failed"),
        };
        let _ = eprintln!(self.rt;
            ": the journal is whole up to there, and `run` answers it; start the server anew, and the set-tops ask again"
        );
    }

    /// The line of a capture file that isn't classic, of microseconds and of Ethernet frames.
    fn tell_kind(&self, kind: FileKind) {
        let _ = match kind {
            FileKind::Pcapng => eprintln!(self.rt;
                "rams-replay: the capture is pcapng: `editcap -F pcap FILE OUT` converts it"
            ),
            FileKind::Nanoseconds => eprintln!(self.rt;
                "rams-replay: the capture is of nanoseconds: `editcap -F pcap FILE OUT` converts it"
            ),
            FileKind::RawIp => eprintln!(self.rt;
                "rams-replay: the capture is of raw IP (link type 101): `{TO_ETHERNET} FILE -o OUT` converts it"
            ),
            FileKind::LinuxCooked => eprintln!(self.rt;
                "rams-replay: the capture is of Linux's device `any` (link type 113): `editcap -F pcap -C 2 -L -T ether FILE OUT` converts it"
            ),
            FileKind::LinuxCooked2 => eprintln!(self.rt;
                "rams-replay: the capture is of Linux's device `any` (link type 276): `editcap -F pcap -C 20 -L -T rawip FILE RAW` and `{TO_ETHERNET} RAW -o OUT` convert it"
            ),
            FileKind::OtherLink(link) => eprintln!(self.rt;
                "rams-replay: the capture's link type is {link}: capture at an Ethernet device (`tcpdump -i eth0`)"
            ),
            FileKind::Ethernet | FileKind::Unknown => eprintln!(self.rt;
                "rams-replay: no capture file begins right behind the head's line `end`; if one does, `editcap -F pcap FILE OUT` converts it"
            ),
        };
    }

    /// The line of totals.
    fn tell_totals(&self) {
        let totals = self.totals.lock(self.rt);
        let Totals {
            live,
            feedback,
            sent,
            bursts,
            repairs,
            ticks,
            late,
            ..
        } = &*totals;
        let clients = totals.clients.len();
        let _ = eprint!(self.rt;
            "rams-replay: in {live} live, {feedback} feedback from {clients} clients; out {sent}; bursts {bursts}, repairs {repairs}; ticks {ticks}, late {late}; refused"
        );
        if totals.refusals.is_empty() {
            let _ = eprint!(self.rt; " none");
        }
        for (code, count) in &totals.refusals {
            let _ = eprint!(self.rt; " {code}: {count}");
        }
        let _ = eprintln!(self.rt; "");
    }
}

impl<R> Gate for Report<'_, R> {
    fn enter(&self, _list: u16, _call: u64) {}

    fn drawing(&self, _list: u16, _call: u64) {}
}

impl<R: Wait + Eprint> Watch for Report<'_, R> {
    fn opens(&self, id: u16, live: u16, feedback: u16) {
        let _ = eprintln!(self.rt;
            "rams-replay: channel {id}: live packets at port {live}, feedback at port {feedback}"
        );
    }

    fn refuses(&self, line: u64, fault: LineFault) {
        let why = match fault {
            LineFault::Form => "it is no line of a trace",
            LineFault::Order => {
                "it may not come here, or it is missing: a head line comes first, then channel lines of its version"
            }
            LineFault::Range => "a number is out of its range",
            LineFault::Twice => "a channel line before has this number",
            LineFault::Rule(_) => {
                "its settings break the rule that standard output names (docs/DEFINITIONS.md)"
            }
        };
        let _ = eprintln!(self.rt;
            "rams-replay: nothing is served, since line {line} of the input is refused: {why}"
        );
    }

    fn hears(&self, heard: Heard<'_>, answer: &HubAnswer) {
        let mut totals = self.totals.lock(self.rt);
        totals.hear(heard);
        match answer {
            HubAnswer::NoChannel(_) => {}
            HubAnswer::Answer(at) => totals.answer(at),
            HubAnswer::Answers(all) => {
                for at in all.iter() {
                    totals.answer(at);
                }
            }
        }
    }

    fn lags(&self) {
        let mut totals = self.totals.lock(self.rt);
        totals.late = totals.late.saturating_add(1);
    }
}

impl<R: Wait + Eprint> CaptureWatch for Report<'_, R> {
    fn refuses_file(&self, fault: CaptureFault, kind: FileKind) {
        let why = match fault {
            CaptureFault::Short => {
                "no capture file stands behind the head: `cat HEAD FILE | rams-replay pcap PORT`"
            }
            CaptureFault::Version => {
                "the capture's version isn't 2.4: `editcap -F pcap FILE OUT` converts it"
            }
            _ => {
                self.tell_kind(kind);
                return;
            }
        };
        let _ = eprintln!(self.rt; "rams-replay: {why}");
    }

    fn refuses_record(&self, number: u64, fault: CaptureFault) {
        let what = match fault {
            CaptureFault::Cut => "ends early: the lines so far and a line `end` are a trace",
            _ => "has more than 262,144 bytes: the file is damaged there, or in front of it",
        };
        let _ = eprintln!(self.rt; "rams-replay: record {number} of the capture {what}");
    }
}
