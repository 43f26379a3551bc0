//! What says a response code alone, and the codes (RFC 6285, 7.3).
ghost use Rattle.std.specs.Prelude.{◌≡◌};
ghost use Rattle.rams_model.specs.Service.{bare_info, end_info, refuse_info};

pub use rams_model::response::{
    ACCEPTED, BITRATE_TOO_LOW, BURST_LOST, COMPLETED, MAX_FILL_UNMET, MIN_FILL_UNMET,
    NO_ACCESS_POINT, NO_BANDWIDTH, ONLY_PREAMBLE, OTHER_SOURCE, TOO_MANY_CLIENTS,
    UNREADABLE_REQUEST, UNREADABLE_STOP, UPDATED,
};
use rams_model::{Cause, Info};

/// Of a refusal.
pub fn refuse_info(code: u16) -> Info
    ensures { result ≡ refuse_info code }
{
    bare_info(0, code)
}

/// Of the end of a burst, after what its client was told last; nothing for a client that left.
pub fn end_info(last: &Info, cause: Cause) -> Option<Info>
    ensures { result ≡ end_info last.now cause }
{
    let code = match cause {
        Cause::Stopped | Cause::Limit => COMPLETED,
        Cause::Lost => BURST_LOST,
        Cause::Bye => return None,
    };
    Some(bare_info(last.msn.wrapping_add(1), code))
}

// A code alone.
fn bare_info(msn: u8, code: u16) -> Info
    ensures { result ≡ bare_info msn code }
{
    Info {
        msn,
        code,
        first: None,
        join_ms: None,
        length_ms: None,
        bps: None,
    }
}
