//! Which line may come where in a trace.
ghost use Rattle.std.specs.Prelude.{◌≡◌, ◌≤◌, Ok, Err, Some, true, ◌==◌, if◌then◌else◌, is_ok, is_some, IfErr, IfOk, OnErr, OnOk};
ghost use Rattle.rams_model.specs.declared.LineFault.TheVariants.{Rule, Twice};
ghost use Rattle.rams_model.specs.Service.{settings, tick_in_range};
ghost use Rattle.rams_model.specs.Texts.{line_of, nothing_reached, tick_of, version_of, has_channel, kind_may_come, may_come_next, may_come, has_version, spells_version, line_is_served, line_in_range, with_line, with_channel, expected, accepted, judged, words_of};
ghost use Rattle.trace_lines.specs.{shown, Unread};
ghost use Rattle.trace_text.specs.{told, judged_as, settled, with_ranged, IsJudged, IsOther, IsSettled};
ghost use Rattle.std.specs.List.{list_any};

use crate::judged::Judged;
use crate::order::{
    has_events, has_one_channel, has_receivers, kind_of, kind_of_first_word, version_spelled,
};
use arrayvec::ArrayVec;
use channel_config::{Config, MOST_CHANNELS};
use rams_model::{Channel, ConfigFault, LineFault, LineKind, Mode};
use std::marker::Model;
use trace_lines::{Line, is_in_range, read_unranged};

/// What the head line said.
#[derive(Clone, Copy)]
struct Head {
    version: u8,
    tick_ms: u32,
    link: u64,
}

impl Model for Head {
    ghost use Rattle.std.specs.Prelude.{◌≡◌, true};
    ghost use Rattle.rams_model.specs.Service.{tick_in_range};
    ghost use Rattle.rams_model.specs.Texts.{Head};

    ghost Value = { Head };

    ghost view = { λ h. record { version = h.version; tick = h.tick_ms; link = h.link } };

    ghost invariant = { λ h. tick_in_range h.tick_ms ≡ true };

    ghost inverse = { λ h. record { version = h.version; tick_ms = h.tick; link = h.link } };
}

/// The number and the share of a channel.
#[derive(Clone, Copy, Default)]
struct Claim {
    id: u16,
    share: u64,
}

impl Model for Claim {
    ghost use Rattle.rams_model.specs.Texts.{Claim};

    ghost Value = { Claim };

    ghost view = { λ c. record { id = c.id; share = c.share } };

    ghost inverse = { λ c. record { id = c.id; share = c.share } };
}

/// How far a trace has come.
#[derive(Drop)]
pub struct State {
    mode: Mode,
    head: Option<Head>,
    channels: ArrayVec<Claim, MOST_CHANNELS>,
    /// The sum of the channels' shares.
    claimed: u64,
    begun: bool,
    ended: bool,
}

impl Model for State {
    ghost use Rattle.std.specs.Prelude.{◌≡◌, ◌*◌, ◌≤◌, sum_by, length};
    ghost use Rattle.rams_model.specs.Texts.{Reached};

    ghost Value = { Reached };

    ghost view = { λ s. record { mode = s.mode; head = s.head; channels = s.channels.items; begun = s.begun; ended = s.ended } };

    ghost invariant = { λ s. (s.claimed ≡ sum_by (λ k. k.share) s.channels.items) × (s.claimed ≤ 1000000000 * length s.channels.items) × (length s.channels.items ≤ 64) };
}

impl State {
    /// Nothing has come yet.
    pub fn new(mode: Mode) -> State
        ensures { result ≡ nothing_reached mode }
    {
        State {
            mode,
            head: None,
            channels: ArrayVec::new(),
            claimed: 0,
            begun: false,
            ended: false,
        }
    }

    /// Reads a line, without its line feed, and goes on behind it. The first fault that is true, in
    /// this order: `Form` where it is no line of a trace, `Order` where a line of its kind may not come
    /// here or a channel line is of another version than the head, `Range` where a number is out of its
    /// range, or, for threads, is not the channel's, and then what is wrong with a channel line: `Twice`
    /// where a channel before has its number, the first of rules 1 to 3 that its settings break,
    /// `Rule(4)` where the shares are more than the link, `Rule(5)` where there are 64 channels already.
    /// A refusal changes nothing.
    pub fn judge<'a>(&mut self, line: &'a [u8]) -> Result<Judged<'a>, LineFault>
        ensures ok { IfOk result (λ read. judged self.old line.now ≡ Ok (told read, self.new)) }
        ensures err { IfErr result (λ fault. judged self.old line.now ≡ Err fault) }
        ensures same { OnErr result (self.new ≡ self.old) }
        ensures settled { IfOk result (IsSettled (tick_of self.new.head)) }
    {
        match self.inspect(line) {
            Ok(read) => {
                self.go_on(&read);
                Ok(read)
            }
            Err(fault) => Err(fault),
        }
    }

    /// What `judge` answers, without going on: a caller that may fail before it has done what the line
    /// says goes on when it is done.
    #[tactic(auto, using(crate::proofs::Judging::judged_ok, crate::proofs::Judging::is_settled))]
    pub fn inspect<'a>(&self, line: &'a [u8]) -> Result<Judged<'a>, LineFault>
        ensures ok { IfOk result (IsJudged self.now line.now) }
        ensures err { IfErr result (λ fault. judged self.now line.now ≡ Err fault) }
        ensures settled { IfOk result (IsSettled (tick_of self.now.head)) }
    {
        match read_unranged(line) {
            Ok(read) => self.examine(&read),
            Err(fault) => Err(self.first_fault(line, fault)),
        }
    }

    /// Goes on behind a line that may come.
    #[tactic(auto, using(crate::proofs::GoingOn::accepted_ranges, crate::proofs::GoingOn::accepted_does))]
    pub fn go_on(&mut self, line: &Judged<'_>)
        requires accepted { is_ok (accepted self.old (told line.now)) ≡ true }
        requires settled { IsSettled (tick_of self.old.head) line.now }
        ensures goes_on { accepted self.old (told line.now) ≡ Ok self.new }
        ensures settled { IsSettled (tick_of self.new.head) line.now }
    {
        match line {
            Judged::Channel { config, .. } => self.add(config.channel()),
            Judged::Other(line) => self.step(line),
        }
    }

    /// Whether a line with the first word of this one, and for a channel line with as many words, may
    /// come next.
    #[tactic(auto, unfolding(rams_model::specs::Texts::TraceOrder::expected))]
    pub fn expects(&self, line: &[u8]) -> bool
        ensures { result ≡ expected self.now line.now }
    {
        match kind_of_first_word(line) {
            Some(kind) => self.kind_may_come(kind) && self.spells_version(kind, line),
            None => false,
        }
    }

    /// Whether a channel line has come.
    pub fn has_channel(&self) -> bool
        ensures { result ≡ has_channel self.now }
    {
        !self.channels.is_empty()
    }

    /// The length of a tick in ms; 0 before the head line.
    pub fn tick_ms(&self) -> u32
        ensures { result ≡ tick_of self.now.head }
    {
        match self.head {
            Some(head) => head.tick_ms,
            None => 0,
        }
    }

    // The version of the text; 0 before the head line.
    fn version(&self) -> u8
        ensures { result ≡ version_of self.now.head }
    {
        match self.head {
            Some(head) => head.version,
            None => 0,
        }
    }

    // The first fault of a line that isn't read for this one.
    #[tactic(auto, using(crate::proofs::Judging::judged_fault, crate::proofs::Judging::judged_order))]
    fn first_fault(&self, line: &[u8], fault: LineFault) -> LineFault
        requires { Unread fault (line_of line.now) }
        ensures { judged self.now line.now ≡ Err result }
    {
        match fault {
            LineFault::Range if self.expects(line) => LineFault::Range,
            LineFault::Range => LineFault::Order,
            other => other,
        }
    }

    // What this line is where it may come, else the first fault of it that is true.
    #[tactic(auto, unfolding(rams_model::specs::Texts::TraceOrder::accepted), using(crate::proofs::Judging::channel_accepted))]
    fn examine<'a>(&self, line: &Line<'a>) -> Result<Judged<'a>, LineFault>
        ensures ok { OnOk result (is_ok (accepted self.now (shown line.now)) ≡ true) }
        ensures err { IfErr result (λ fault. accepted self.now (shown line.now) ≡ Err fault) }
        ensures judged { IfOk result (λ read. read ≡ judged_as (tick_of self.now.head) line.now) }
    {
        if !self.may_come(line) {
            return Err(LineFault::Order);
        }
        if let Line::Channel { version, channel } = line {
            let version = *version;
            let config = self.admit(channel)?;
            return Ok(Judged::Channel { version, config });
        }
        if !is_in_range(line) || !self.serves(line) {
            return Err(LineFault::Range);
        }
        Ok(Judged::Other(*line))
    }

    // Goes on behind a line that may come and opens no channel.
    fn step(&mut self, line: &Line<'_>)
        requires other { IsOther line.now }
        requires range { line_in_range (shown line.now) ≡ true }
        ensures { with_line self.old (shown line.now) ≡ Ok self.new }
    {
        match line {
            Line::Head {
                version,
                tick_ms,
                link,
            } => self.set_head(*version, *tick_ms, *link),
            Line::End => self.ended = true,
            _ => self.begun = true,
        }
    }

    // Whether this line may come next.
    fn may_come(&self, line: &Line<'_>) -> bool
        ensures { result ≡ may_come self.now (shown line.now) }
    {
        self.kind_may_come(kind_of(line)) && self.has_version(line)
    }

    // Whether a channel line is spelled in the version of the trace.
    fn has_version(&self, line: &Line<'_>) -> bool
        ensures { result ≡ has_version self.now (shown line.now) }
    {
        match line {
            Line::Channel { version, .. } => self.version() == *version,
            _ => true,
        }
    }

    // The same of a line of this kind, as its number of words tells.
    fn spells_version(&self, kind: LineKind, line: &[u8]) -> bool
        ensures { result ≡ spells_version self.now kind (words_of line.now) }
    {
        kind != LineKind::Channel || self.version() == version_spelled(line)
    }

    // Whether a line of this kind may come next.
    fn kind_may_come(&self, kind: LineKind) -> bool
        ensures { result ≡ kind_may_come self.now kind }
    {
        !self.ended && self.may_come_next(kind)
    }

    fn may_come_next(&self, kind: LineKind) -> bool
        ensures { result ≡ may_come_next self.now kind }
    {
        let has_channel = self.has_channel();
        match kind {
            LineKind::Event => has_channel && has_events(self.mode),
            LineKind::ReceiverEvent => has_channel && has_receivers(self.mode),
            LineKind::Head => self.head.is_none(),
            LineKind::Channel => {
                self.head.is_some() && !self.begun && !(has_one_channel(self.mode) && has_channel)
            }
            LineKind::End => has_channel,
        }
    }

    // Whether an event is of a channel that is read for.
    fn serves(&self, line: &Line<'_>) -> bool
        ensures { result ≡ line_is_served self.now (shown line.now) }
    {
        match line {
            Line::Live { id, .. } | Line::Feedback { id, .. } => {
                !has_one_channel(self.mode) || self.has(*id)
            }
            _ => true,
        }
    }

    fn set_head(&mut self, version: u8, tick_ms: u32, link: u64)
        requires { tick_in_range tick_ms ≡ true }
        ensures { self.new ≡ record self.old { head = Some (record { version = version; tick = tick_ms; link = link }) } }
    {
        self.head = Some(Head {
            version,
            tick_ms,
            link,
        });
    }

    // The settings of a channel that can be added, or what is wrong with them.
    fn admit(&self, channel: &Channel) -> Result<Config, LineFault>
        ensures ok { OnOk result (is_ok (with_ranged self.now self.now.head channel.now) ≡ true) }
        ensures err { IfErr result (λ fault. with_ranged self.now self.now.head channel.now ≡ Err fault) }
        ensures config { IfOk result (λ config. config ≡ settings channel.now (tick_of self.now.head)) }
    {
        let Some(head) = self.head else {
            return Err(LineFault::Order);
        };
        let config = self.check(channel, head.tick_ms)?;
        if self.claimed + channel.share > head.link {
            return Err(LineFault::Rule(4));
        }
        if self.channels.is_full() {
            return Err(LineFault::Rule(5));
        }
        Ok(config)
    }

    // Adds a channel that can be added.
    #[tactic(auto, using(crate::proofs::GoingOn::joins_few, crate::proofs::GoingOn::joins_small, crate::proofs::GoingOn::joins_gives))]
    fn add(&mut self, channel: &Channel)
        requires { is_ok (with_channel self.old self.old.head channel.now) ≡ true }
        ensures goes_on { with_channel self.old self.old.head channel.now ≡ Ok self.new }
        ensures head { self.new.head ≡ self.old.head }
    {
        self.channels.push(Claim {
            id: channel.id,
            share: channel.share,
        });
        self.claimed += channel.share;
    }

    // The settings of a channel, or what is wrong with them before the other shares are looked at: the
    // ranges, a number that a channel before has, the rules.
    #[tactic(auto, using(crate::proofs::Checks::checked_share))]
    fn check(&self, channel: &Channel, tick_ms: u32) -> Result<Config, LineFault>
        requires { tick_in_range tick_ms ≡ true }
        ensures settled { result ≡ settled self.now (settings channel.now tick_ms) }
        ensures share { OnOk result (channel.now.share ≤ 1000000000) }
    {
        let twice = self.has(channel.id);
        match Config::check(*channel, tick_ms) {
            Err(ConfigFault::Range) => Err(LineFault::Range),
            Err(ConfigFault::Rule(rule)) => Err(first_of(twice, rule)),
            Ok(config) => {
                if twice {
                    return Err(LineFault::Twice);
                }
                Ok(config)
            }
        }
    }

    // Whether a channel has this number.
    fn has(&self, id: u16) -> bool
        ensures { result ≡ list_any (λ k. k.id == id) self.now.channels }
    {
        self.channels.iter().any(|claim| claim.id == id)
    }
}

// A number that a channel before has is told before the rules that are broken.
fn first_of(twice: bool, rule: u8) -> LineFault
    ensures { result ≡ (if twice then Twice else Rule rule) }
{
    if twice {
        LineFault::Twice
    } else {
        LineFault::Rule(rule)
    }
}
