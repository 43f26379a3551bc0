//! The generic NACK, read (RFC 4585, 6.2.1).
ghost use Rattle.std.specs.Prelude.{◌≡◌, IfOk, IfErr};
ghost use Rattle.rams_model.specs.Formats.TransportFeedback as model;
ghost use Rattle.wire_packets.specs.rtcp_feedback.{numbers_left};

use crate::rtcp_feedback::nack_iter::NackIter;
use rams_model::NackFault;

/// The numbers that the feedback control information of a generic NACK names, in their order.
pub fn nack_numbers(fci: &[u8]) -> Result<NackIter<'_>, NackFault>
    ensures ok { IfOk result (λ numbers. model.nack_numbers fci.now ≡ Ok (numbers_left numbers)) }
    ensures err { IfErr result (λ e. model.nack_numbers fci.now ≡ Err e) }
{
    if fci.is_empty() {
        return Err(NackFault::Empty);
    }
    if fci.len() % 4 != 0 {
        return Err(NackFault::Length);
    }
    Ok(NackIter {
        words: fci,
        pid: 0,
        blp: 0,
        bit: 17,
    })
}
