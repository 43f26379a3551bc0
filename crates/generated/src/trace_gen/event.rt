//! The events of a seed, one after another.
ghost use Rattle.std.specs.Prelude.{◌≡◌, [], IfNone, IfSome, IfOk, OnOk, OnErr, option_map};
ghost use Rattle.generated.specs.trace_gen.{left, with_first, event_on, next_on, IsReady, IsReadNext};

use crate::trace_gen::made::Made;
use crate::trace_gen::page::{Kind, Next};
use bytes::Bytes;
use ram_io::NoMemory;
use rams_model::Event;
use std::alloc::Global;

/// The next event of `blocks` blocks of a seed, and `None` exactly after the last. After want of
/// memory, and after the last, `at` is as before.
pub fn event_of(
    alloc: Global,
    seed: u32,
    blocks: u32,
    at: &mut Made,
) -> Result<Option<Event>, NoMemory>
    requires { at.old.seed ≡ seed }
    ensures next { IfOk result (λ event. left at.old blocks ≡ with_first event (left at.new blocks)) }
    ensures last { IfOk result (λ event. IfNone event ((left at.old blocks ≡ []) × (at.new ≡ at.old))) }
    ensures seed { at.new.seed ≡ seed }
    ensures same { OnErr result (at.new ≡ at.old) }
{
    let mut page = Vec::new(alloc);
    let kind = event_into(blocks, at, &mut page)?;
    Ok(kind.map(|kind| kind.with_bytes(page)))
}

/// `event_of`, with the event's bytes on `page`, whose room is used again: what stood there goes.
#[tactic(auto, using(crate::proofs::trace_gen::Coming::none_comes, crate::proofs::trace_gen::Coming::packet_comes, crate::proofs::trace_gen::Coming::request_comes, crate::proofs::trace_gen::Coming::nack_comes, crate::proofs::trace_gen::Coming::stop_comes, crate::proofs::trace_gen::Coming::tick_comes))]
pub fn event_into(blocks: u32, at: &mut Made, page: &mut Vec<u8>) -> Result<Option<Kind>, NoMemory>
    ensures next { IfOk result (λ kind. left at.old blocks ≡ with_first (option_map (λ k. event_on k page.new.items) kind) (left at.new blocks)) }
    ensures last { IfOk result (λ kind. IfNone kind ((left at.old blocks ≡ []) × (at.new ≡ at.old))) }
    ensures seed { at.new.seed ≡ at.old.seed }
    ensures same { OnErr result (at.new ≡ at.old) }
{
    page.clear();
    if at.block() >= blocks {
        return Ok(None);
    }
    if at.has_packets() {
        return Ok(Some(at.packet(page)?));
    }
    if at.has_feedback() {
        match at.block() % 4 {
            1 => return Ok(Some(at.request(page)?)),
            2 => return Ok(Some(at.nack(page)?)),
            3 => return Ok(Some(at.stop(page)?)),
            _ => (),
        }
    }
    Ok(Some(at.tick()))
}

/// The next event, with a packet in memory that it shares with others of its block, which stand on `ready` until they
/// come, and with the bytes of another on `page`. After want of memory, and after the last event, `at` is as before.
#[tactic(auto, using(crate::proofs::trace_gen::Coming::packet_comes))]
pub fn next_event(
    alloc: Global,
    blocks: u32,
    at: &mut Made,
    ready: &mut Bytes,
    page: &mut Vec<u8>,
) -> Result<Option<Next>, NoMemory>
    requires { IsReady at.old ready.old }
    ensures next { IfOk result (λ e. left at.old blocks ≡ with_first (option_map (λ n. next_on n page.new.items) e) (left at.new blocks)) }
    ensures last { IfOk result (λ e. IfNone e ((left at.old blocks ≡ []) × (at.new ≡ at.old))) }
    ensures read { IfOk result (λ e. IfSome e IsReadNext) }
    ensures ready { OnOk result (IsReady at.new ready.new) }
    ensures seed { at.new.seed ≡ at.old.seed }
    ensures same { OnErr result (at.new ≡ at.old) }
{
    if at.block() < blocks && at.has_packets() {
        return Ok(Some(Next::Packet(at.shared_packet(alloc, ready)?)));
    }
    ready.clear();
    match event_into(blocks, at, page)? {
        Some(kind) => Ok(Some(Next::OnPage(kind))),
        None => Ok(None),
    }
}
