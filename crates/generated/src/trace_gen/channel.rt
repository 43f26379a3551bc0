//! The channel of generated traces.
ghost use Rattle.std.specs.Prelude.{◌≡◌};
ghost use Rattle.generated.specs.trace_gen.{config};

use channel_config::{Access, Channel, Config};

/// The SSRC of the media source.
pub const MEDIA: u32 = 0x11223344;

/// The length of a tick, in ms.
const TICK_MS: u32 = 10;

const CHANNEL: Channel = Channel {
    id: 1,
    ssrc: MEDIA,
    pt: 33,
    rtx: 99,
    server: 0xff,
    seq0: 0,
    ring: 1024,
    window: 8,
    access: Access::Marker,
    share: 200_000,
    reserve: 20_000,
    burst: 60_000,
    declared: 20_000,
    minwire: 142,
    limit: 400,
    idle: 400,
    clients: 64,
    depth: 0,
    swell: 0,
};

/// The settings of the channel to which the events come.
#[tactic(auto, unfolding(rams_model::specs::Service::ChannelSettings::checked))]
pub fn config_of() -> Config
    ensures { result ≡ config }
{
    match Config::check(CHANNEL, TICK_MS) {
        Ok(config) => config,
        Err(_) => unreachable!(),
    }
}
