//! A client's place in the table while its datagram is answered.
ghost use Rattle.std.specs.Prelude.{◌≡◌, ◌↔◌, is_some, IfOk, OnOk, OnErr};
ghost use Rattle.client_table.specs.{entry_of};
ghost use Rattle.feedback_core.specs.{has_place, with_place, with_kept};

use client_table::{AdmitFault, Entry, Table};
use ram_io::NoMemory;

/// Makes a place for the client, where it isn't known and can be: whether it has one. It takes the
/// memory; after want of it all is as before. The caller has looked whether the client is known.
pub(crate) fn make_place(
    table: &mut Table,
    client: u64,
    is_known: bool,
    seq0: u16,
) -> Result<bool, NoMemory>
    requires { is_known ≡ is_some (entry_of table.old client) }
    ensures value { IfOk result (λ has. has ≡ has_place table.old client) }
    ensures table { OnOk result (table.new ≡ with_place table.old client seq0) }
    ensures same { OnErr result (table.new ≡ table.old) }
{
    if is_known {
        return Ok(true);
    }
    match table.admit(client, 0, seq0) {
        Ok(()) => Ok(true),
        Err(AdmitFault::Full) => Ok(false),
        Err(AdmitFault::NoMemory) => Err(NoMemory),
    }
}

/// Puts what is kept of the client into its place, or gives the place up. Takes no memory.
pub(crate) fn keep(table: &mut Table, client: u64, entry: Option<Entry>)
    ensures { table.new ≡ with_kept table.old client entry }
{
    match entry {
        Some(entry) => table.set(client, entry),
        None => {
            table.remove(client);
        }
    }
}
