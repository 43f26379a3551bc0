//! Settings that were checked.
ghost use Rattle.std.specs.Prelude.{◌≡◌, ◌&&◌};
ghost use Rattle.rams_model.specs.Service.{settings, checked, names_in_range, bytes_in_range, bounds_in_range, channel_in_range, tick_in_range, most_bytes};
ghost use Rattle.std.specs.Int.{is_in_range as is_between};
ghost use Rattle.channel_config.specs.{IsLawful, PassIfLawful};

use rams_model::{Channel, ConfigFault, MOST_ON_WIRE};
use std::marker::Model;

/// Most channels of a trace, and of a server.
pub const MOST_CHANNELS: usize = 64;

/// Most bytes of a tick, in each setting that is such an amount.
const MOST_IN_A_TICK: u64 = 1_000_000_000;

/// The retransmission of an RTP packet without a payload.
const LEAST_ON_WIRE: u64 = 42;

/// A tick has room for a packet of any size.
const LEAST_IN_A_TICK: u64 = MOST_ON_WIRE as u64;

/// A channel's settings with the length of a tick, checked to be lawful.
#[derive(Clone, Copy, PartialEq, Eq)]
pub struct Config {
    channel: Channel,
    tick_ms: u32,
}

impl Model for Config {
    ghost use Rattle.rams_model.specs.Service.{Settings, settings};
    ghost use Rattle.channel_config.specs.{IsLawful};

    ghost Value = { Settings };

    ghost view = { λ c. settings c.channel c.tick_ms };

    ghost invariant = { λ c. IsLawful (settings c.channel c.tick_ms) };

    ghost inverse = { λ s. record { channel = s.channel; tick_ms = s.tick } };
}

impl Config {
    /// `Range` where a number is out of its range, else `Rule(k)` for the first rule k that is broken:
    /// 1, the payload types differ; 2, a burst has room for a packet beside what the source declares;
    /// 3, the share has room for the reserve, a burst and what a burst keeps.
    #[tactic(auto, unfolding(rams_model::specs::Service::ChannelSettings::checked))]
    pub fn check(c: Channel, tick_ms: u32) -> Result<Config, ConfigFault>
        ensures { result ≡ checked (settings c tick_ms) }
    {
        if !is_in_range(&c, tick_ms) {
            return Err(ConfigFault::Range);
        }
        if c.pt == c.rtx {
            return Err(ConfigFault::Rule(1));
        }
        if c.burst < c.declared + LEAST_IN_A_TICK {
            return Err(ConfigFault::Rule(2));
        }
        if c.share < c.reserve + c.burst + c.depth {
            return Err(ConfigFault::Rule(3));
        }
        Ok(Config {
            channel: c,
            tick_ms,
        })
    }

    /// The settings, which are lawful.
    pub fn channel(&self) -> &Channel
        ensures value { result.now ≡ self.now.channel }
        ensures lawful { IsLawful self.now }
    {
        &self.channel
    }

    /// The length of a tick, in ms: 1 to 1,000.
    pub fn tick_ms(&self) -> u32
        ensures value { result ≡ self.now.tick }
        ensures lawful { IsLawful self.now }
    {
        self.tick_ms
    }
}

fn is_in_range(c: &Channel, tick_ms: u32) -> bool
    ensures { result ≡ (tick_in_range tick_ms && channel_in_range c.now) }
{
    is_tick_in_range(tick_ms) && is_channel_in_range(c)
}

/// Whether a tick's length in ms is in its range.
pub fn is_tick_in_range(tick_ms: u32) -> bool
    ensures { result ≡ tick_in_range tick_ms }
{
    (1..=1000).contains(&tick_ms)
}

/// Whether a channel's number is in its range.
pub fn is_id_in_range(id: u16) -> bool
    ensures { result ≡ is_between 1 65535 id }
{
    id >= 1
}

/// Whether each number of a channel's settings is in its range.
pub fn is_channel_in_range(c: &Channel) -> bool
    ensures { result ≡ channel_in_range c.now }
{
    are_names_in_range(*c) && are_bytes_in_range(c) && are_bounds_in_range(c)
}

/// Whether a tick of so many bytes has room for a packet, and they aren't too many.
pub fn is_amount(bytes: u64) -> bool
    ensures { result ≡ is_between MOST_ON_WIRE most_bytes bytes }
{
    (LEAST_IN_A_TICK..=MOST_IN_A_TICK).contains(&bytes)
}

// The numbers that name things. The type of the others in `names_in_range` holds no more.
fn are_names_in_range(c: Channel) -> bool
    ensures { result ≡ names_in_range c }
{
    is_id_in_range(c.id) && c.pt <= 127 && c.rtx <= 127
}

// The amounts of bytes.
fn are_bytes_in_range(c: &Channel) -> bool
    ensures { result ≡ bytes_in_range c.now }
{
    is_amount(c.share)
        && is_amount(c.reserve)
        && is_amount(c.burst)
        && c.declared <= MOST_IN_A_TICK
        && (LEAST_ON_WIRE..=u64::from(MOST_ON_WIRE)).contains(&c.minwire)
        && c.depth <= MOST_IN_A_TICK
        && c.swell <= MOST_IN_A_TICK
}

// How much is kept, and how long.
fn are_bounds_in_range(c: &Channel) -> bool
    ensures { result ≡ bounds_in_range c.now }
{
    (1..=32768).contains(&c.ring)
        && c.window <= 64
        && (1..=1_000_000).contains(&c.limit)
        && (1..=1_000_000).contains(&c.idle)
        && (1..=1024).contains(&c.clients)
}

/// Settings pass the check exactly where they are lawful.
pub fn lawful_settings()
    ensures { PassIfLawful }
{}
