//! What a client is told in a RAMS-I (RFC 6285, 7.3).
ghost use Rattle.std.specs.Prelude.{◌≡◌, ◌≤◌, ◌^◌};
ghost use Rattle.feedback_core.specs.{info_for};
ghost use Rattle.rams_model.specs.Service.Infos as infos;

use crate::visitor::Visitor;
use channel_config::Config;
use channel_parts::response::{ACCEPTED, UPDATED, refuse_info};
use client_table::Info;
use rams_model::Note;
use reckoning::burst_plan::bits_of;

/// Of an accepted request: 200, with the sequence number of the client's next packet.
pub(crate) fn accept_info(config: &Config, sequence: u16, rate: u64, join: u64) -> Info
    requires { rate ≤ 10 ^ 9 }
    ensures { result ≡ infos.accept_info config.now sequence rate join }
{
    let told = Told {
        msn: 0,
        code: ACCEPTED,
        first: Some(sequence),
        ticks: config.channel().limit,
    };
    burst_info(config, told, rate, join)
}

/// Of an update: 100, with the first sequence number of before and what is left of the time.
pub(crate) fn update_info(config: &Config, last: &Info, ticks: u32, rate: u64, join: u64) -> Info
    requires rate { rate ≤ 10 ^ 9 }
    requires ticks { ticks ≤ config.now.channel.limit }
    ensures { result ≡ infos.update_info config.now last.now ticks rate join }
{
    let told = Told {
        msn: last.msn.wrapping_add(1),
        code: UPDATED,
        first: last.first,
        ticks: config.channel().limit - ticks,
    };
    burst_info(config, told, rate, join)
}

/// Of the answer to a request, after which the visitor is this.
pub(crate) fn request_info(visitor: &Visitor, note: Note) -> Option<Info>
    ensures { result ≡ info_for visitor.now.entry note }
{
    match note {
        Note::Accept { .. } | Note::Update { .. } | Note::Again { .. } => Some(
            visitor.entry?.burst?.last,
        ),
        Note::Refuse { code, .. } => Some(refuse_info(code)),
        _ => None,
    }
}

/// Which message it is, and the ticks that the burst may go on.
#[derive(Clone, Copy)]
struct Told {
    msn: u8,
    code: u16,
    first: Option<u16>,
    ticks: u32,
}

// Of a burst. Times are in ms, in a field of 32 bits.
fn burst_info(config: &Config, told: Told, rate: u64, join: u64) -> Info
    requires rate { rate ≤ 10 ^ 9 }
    requires ticks { told.ticks ≤ 1000000 }
    ensures { result ≡ infos.burst_info config.now told.msn told.code told.first told.ticks rate join }
{
    let tick_ms = config.tick_ms();
    let join_ms = u128::from(join) * u128::from(tick_ms);
    Info {
        msn: told.msn,
        code: told.code,
        first: told.first,
        join_ms: Some(join_ms.min(u128::from(u32::MAX)) as u32),
        length_ms: Some(told.ticks * tick_ms),
        bps: Some(bits_of(rate, tick_ms)),
    }
}
