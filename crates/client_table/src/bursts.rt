//! The clients with an open burst, by rising number, each with its key.
ghost use Rattle.std.specs.Prelude.{◌≡◌, ◌<◌, ◌≤◌, length, vec_capacity, MatchResult};
ghost use Rattle.client_table.specs.{opened_at, closed_at, marked, IsPlace, IsGap, Rise};

/// Where a client stands, or where it would.
fn place_in(bursts: &[(u64, usize)], client: u64) -> Result<usize, usize>
    requires { Rise bursts.now }
    ensures { MatchResult result (IsPlace client bursts.now) (IsGap client bursts.now) }
{
    bursts.binary_search_by_key(&client, |e| e.0)
}

/// A client has an open burst.
fn open_client(bursts: &mut Vec<(u64, usize)>, client: u64, key: usize)
    requires rise { Rise bursts.old.items }
    requires room { length bursts.old.items < vec_capacity bursts.old }
    ensures items { bursts.new.items ≡ opened_at client key bursts.old.items }
    ensures room { vec_capacity bursts.old ≤ vec_capacity bursts.new }
{
    if let Err(place) = place_in(bursts, client) {
        // There is room, so it always goes in.
        let _ = bursts.insert(place, (client, key));
    }
}

/// A client has no open burst.
pub(crate) fn close_client(bursts: &mut Vec<(u64, usize)>, client: u64)
    requires rise { Rise bursts.old.items }
    ensures items { bursts.new.items ≡ closed_at client bursts.old.items }
    ensures room { vec_capacity bursts.old ≤ vec_capacity bursts.new }
{
    if let Ok(place) = place_in(bursts, client) {
        bursts.remove(place);
    }
}

/// A client had an open burst or had none, and now has one or has none.
pub(crate) fn mark(
    bursts: &mut Vec<(u64, usize)>,
    client: u64,
    key: usize,
    was_open: bool,
    is_open: bool,
)
    requires rise { Rise bursts.old.items }
    requires room { length bursts.old.items < vec_capacity bursts.old }
    ensures items { bursts.new.items ≡ marked was_open is_open client key bursts.old.items }
    ensures room { vec_capacity bursts.old ≤ vec_capacity bursts.new }
{
    match (was_open, is_open) {
        (false, true) => open_client(bursts, client, key),
        (true, false) => close_client(bursts, client),
        _ => {}
    }
}
