//! The clients that are forgotten.
ghost use Rattle.std.specs.Prelude.{◌≡◌, ◌==◌, IfOk};
ghost use Rattle.client_table.specs.{entry_of, AreRising};
ghost use Rattle.tick_core.specs.{idle_after, with_forgotten_if, with_all_forgotten};

use channel_config::Config;
use client_table::{Entry, Table};
use ram_io::NoMemory;
use rams_model::Note;
use repair_queue::Queue;
use tick_draft::Draft;

/// A client's idle count after a tick: one more, unless it had an open burst or a pending repair as the
/// tick began.
fn idle_after(queue: &Queue, client: u64, entry: &Entry) -> u64
    ensures { result ≡ idle_after queue.now client entry.now }
{
    if entry.burst.is_some() || queue.has(client) {
        0
    } else {
        u64::from(entry.idle) + 1
    }
}

/// Whether a client has been idle for so many ticks. An idle count is 0 or one more than it was, so the
/// queue is asked only where one more is enough.
fn is_idle(config: &Config, queue: &Queue, client: u64, entry: &Entry) -> bool
    ensures { result ≡ (idle_after queue.now client entry.now == config.now.channel.idle) }
{
    let idle = u64::from(config.channel().idle);
    u64::from(entry.idle) + 1 == idle && idle_after(queue, client, entry) == idle
}

/// Notes that a client is forgotten, where it is known and has been idle for so many ticks.
fn forget_client(
    config: &Config,
    queue: &Queue,
    table: &Table,
    client: u64,
    draft: &mut Draft,
) -> Result<(), NoMemory>
    ensures { IfOk result (λ _. draft.new ≡ with_forgotten_if config.now queue.now client (entry_of table.now client) draft.old) }
{
    let Some(entry) = table.find(client) else {
        return Ok(());
    };
    if is_idle(config, queue, client, &entry) {
        draft.note(Note::Forgot { client })?;
    }
    Ok(())
}

/// Notes who is forgotten, by rising number. Those alone are looked at who may have been idle for so many
/// ticks.
pub fn forget_clients(
    config: &Config,
    queue: &Queue,
    table: &Table,
    draft: &mut Draft,
) -> Result<(), NoMemory>
    requires { AreRising table.now }
    ensures { IfOk result (λ _. draft.new ≡ with_all_forgotten config.now queue.now table.now.known draft.old) }
{
    for client in table.due_next(config.channel().idle) {
        forget_client(config, queue, table, client, draft)?;
    }
    Ok(())
}
