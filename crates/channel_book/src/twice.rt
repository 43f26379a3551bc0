//! An answer with its copy.
ghost use Rattle.std.specs.Prelude.{◌≡◌, ◌^◌, ◌≤◌, List, [], ◌∷◌, length, vec_len, vec_capacity, IfOk, OnErr};
ghost use Rattle.rams_model.specs.declared.Event.{Event};
ghost use Rattle.rams_model.specs.declared.Event.TheVariants.{Live, Feedback, Tick};
ghost use Rattle.server_hub.specs.session_core.{StandsFor, StandsForFewer, TellsAlone};
ghost use Rattle.channel_book.specs.{IsTwice};

use crate::copies::{Room, copy_answer, copy_small};
use ram_io::NoMemory;
use rams_model::{Answer, Event};
use server_hub::session_core::{Core, LONGEST_DATAGRAM, most_in};
use std::alloc::Global;

/// An answer, once for the book and once for the caller.
#[derive(Drop)]
pub(crate) struct Twice {
    pub kept: Answer,
    pub given: Answer,
}

/// Steps the core: its answer, twice. The memory of the copy is taken before the core changes, so that
/// after want of memory it is as before.
pub(crate) fn answer_twice(alloc: Global, core: &mut Core, event: &Event) -> Result<Twice, NoMemory>
    requires few { StandsForFewer core.old (2 ^ 40) }
    ensures stands { (events : List Event) → StandsFor core.old events →
        IfOk result (λ twice. IsTwice core.old.settings events event.now twice.kept twice.given × StandsFor core.new (event.now ∷ events)) }
    ensures settings { core.new.settings ≡ core.old.settings }
    ensures same { OnErr result (core.new ≡ core.old) }
{
    match event {
        Event::Live(bytes) => live_twice(alloc, core, bytes.bytes()),
        Event::Feedback { client, bytes } => feedback_twice(alloc, core, *client, bytes.bytes()),
        Event::Tick => tick_twice(alloc, core),
    }
}

/// A live packet has one note and no order.
fn live_twice(alloc: Global, core: &mut Core, bytes: &[u8]) -> Result<Twice, NoMemory>
    requires few { StandsForFewer core.old (2 ^ 40) }
    ensures stands { (events : List Event) → StandsFor core.old events →
        IfOk result (λ twice. IsTwice core.old.settings events (Live bytes.now) twice.kept twice.given × StandsFor core.new (Live bytes.now ∷ events)) }
    ensures settings { core.new.settings ≡ core.old.settings }
    ensures same { OnErr result (core.new ≡ core.old) }
{
    let answer = core.live(alloc, bytes)?;
    Ok(small_twice(alloc, answer))
}

/// An answer of one note at most that sends nothing. It takes no memory.
fn small_twice(alloc: Global, given: Answer) -> Twice
    requires few { length given.notes ≤ 1 }
    requires silent { given.orders ≡ [] }
    ensures { (result.kept ≡ given) × (result.given ≡ given) }
{
    Twice {
        kept: copy_small(alloc, &given),
        given,
    }
}

/// The same answer, without the room that it doesn't need.
fn fitted(mut answer: Answer) -> Answer
    ensures { result ≡ answer }
{
    answer.notes.shrink_to_fit();
    answer.orders.shrink_to_fit();
    answer
}

/// The answer, once more in the room. One of a single note that sends nothing needs no memory, twice.
fn twice_in(alloc: Global, room: Room, answer: Answer) -> Twice
    requires empty { (room.notes.items ≡ []) × (room.orders.items ≡ []) }
    requires counts { (vec_len room.notes ≡ 0) × (vec_len room.orders ≡ 0) }
    requires room { (length answer.notes ≤ vec_capacity room.notes) × (length answer.orders ≤ vec_capacity room.orders) }
    requires told { TellsAlone answer }
    ensures { (result.kept ≡ answer) × (result.given ≡ answer) }
{
    if answer.notes.as_slice().len() == 1 && answer.orders.is_empty() {
        return Twice {
            kept: copy_small(alloc, &answer),
            given: copy_small(alloc, &answer),
        };
    }
    let given = room.copy(&answer);
    Twice {
        kept: fitted(answer),
        given,
    }
}

/// A datagram has no more notes than its messages allow, and no order but a RAMS-I.
fn feedback_twice(
    alloc: Global,
    core: &mut Core,
    client: u64,
    bytes: &[u8],
) -> Result<Twice, NoMemory>
    ensures stands { (events : List Event) → StandsFor core.old events →
        IfOk result (λ twice. IsTwice core.old.settings events (Feedback client bytes.now) twice.kept twice.given × StandsFor core.new (Feedback client bytes.now ∷ events)) }
    ensures settings { core.new.settings ≡ core.old.settings }
    ensures same { OnErr result (core.new ≡ core.old) }
{
    if bytes.len() > LONGEST_DATAGRAM {
        return Err(NoMemory);
    }
    let most = most_in(bytes);
    if most.notes <= 1 && most.orders == 0 {
        let answer = core.feedback(alloc, client, bytes)?;
        return Ok(small_twice(alloc, answer));
    }
    let room = Room::new(alloc, most.notes, most.orders)?;
    let answer = core.feedback(alloc, client, bytes)?;
    Ok(twice_in(alloc, room, answer))
}

/// A tick is planned, the plan's answer copied, and the plan done.
fn tick_twice(alloc: Global, core: &mut Core) -> Result<Twice, NoMemory>
    ensures stands { (events : List Event) → StandsFor core.old events →
        IfOk result (λ twice. IsTwice core.old.settings events Tick twice.kept twice.given × StandsFor core.new (Tick ∷ events)) }
    ensures settings { core.new.settings ≡ core.old.settings }
    ensures same { OnErr result (core.new ≡ core.old) }
{
    let plan = core.plan_tick(alloc)?;
    let kept = copy_answer(alloc, &plan.answer)?;
    let given = fitted(core.commit_tick(plan));
    Ok(Twice { kept, given })
}
