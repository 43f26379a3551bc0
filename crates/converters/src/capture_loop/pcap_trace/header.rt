//! The header of a record.
ghost use Rattle.std.specs.Prelude.{◌≡◌, ◌<◌, ◌≤◌, ◌^◌, IfOk};
ghost use Rattle.converters.specs.capture_loop.pcap_trace.{record_at};

use crate::capture_loop::pcap_trace::head::{CaptureFault, Endian};
use crate::capture_loop::pcap_trace::numbers::word_by;

/// Bytes of a record's header.
pub const HEADER_SIZE: usize = 16;

/// Most captured bytes of a record.
pub const MOST_CAPTURED: u32 = 262144;

/// When a record's bytes came, and how many were captured.
#[derive(Clone, Copy, PartialEq, Eq)]
pub struct Record {
    /// In ms, rounded down.
    pub ms: u64,
    pub len: u32,
}

/// The record whose header these bytes begin with, or its first fault.
#[tactic(auto, unfolding(crate::specs::capture_loop::pcap_trace::Files::record_at))]
pub fn read_record(bytes: &[u8], e: Endian) -> Result<Record, CaptureFault>
    ensures exact { result ≡ record_at e bytes.now }
    ensures moment { IfOk result (λ r. r.ms < 2 ^ 43) }
    ensures short { IfOk result (λ r. r.len ≤ 262144) }
{
    if bytes.len() < HEADER_SIZE {
        return Err(CaptureFault::Cut);
    }
    let len = word_by(e, 8, bytes);
    if len > MOST_CAPTURED {
        return Err(CaptureFault::Long);
    }
    let seconds = u64::from(word_by(e, 0, bytes));
    let microseconds = u64::from(word_by(e, 4, bytes));
    Ok(Record {
        ms: seconds * 1000 + microseconds / 1000,
        len,
    })
}
