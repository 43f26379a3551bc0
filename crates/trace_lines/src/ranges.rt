//! The ranges of a line's numbers.
ghost use Rattle.std.specs.Prelude.{◌≡◌, false, MatchResult};
ghost use Rattle.rams_model.specs.declared.LineFault.TheVariants.{Range};
ghost use Rattle.rams_model.specs.Service.{tick_in_range};
ghost use Rattle.rams_model.specs.Texts.{id_in_range, client_in_range, line_in_range};
ghost use Rattle.trace_lines.specs.{shown};

use crate::line::Line;
use crate::values::{narrow16, narrow32};
use channel_config::{is_amount, is_channel_in_range, is_id_in_range, is_tick_in_range};
use rams_model::LineFault;

/// The number as a channel's; `Range` where it has more than 16 bits.
pub fn channel_id(number: u64) -> Result<u16, LineFault>
    ensures { MatchResult result (λ id. id ≡ number) (λ fault. (fault ≡ Range) × (id_in_range number ≡ false)) }
{
    narrow16(number).ok_or(LineFault::Range)
}

/// The number as the length of a tick; `Range` where it has more than 32 bits.
pub fn tick_ms(number: u64) -> Result<u32, LineFault>
    ensures { MatchResult result (λ tick. tick ≡ number) (λ fault. (fault ≡ Range) × (tick_in_range number ≡ false)) }
{
    narrow32(number).ok_or(LineFault::Range)
}

/// Whether each number of a line is in its range.
pub fn is_in_range(line: &Line<'_>) -> bool
    ensures { result ≡ line_in_range (shown line.now) }
{
    match line {
        Line::Live { id, .. } => is_id_in_range(*id),
        Line::Feedback { id, client, .. }
        | Line::Tune { id, client, .. }
        | Line::Mcast { id, client, .. }
        | Line::Ask { id, client }
        | Line::Drop { id, client } => is_id_in_range(*id) && is_client(*client),
        Line::Tick | Line::End | Line::Give { .. } => true,
        Line::Head { tick_ms, link, .. } => is_tick_in_range(*tick_ms) && is_amount(*link),
        Line::Channel { channel, .. } => is_channel_in_range(channel),
    }
}

// An IPv4 address and a port.
fn is_client(number: u64) -> bool
    ensures { result ≡ client_in_range number }
{
    number < 1 << 48
}
