//! The channels by their numbers.
ghost use Rattle.std.specs.Prelude.{◌≡◌, ◌≢◌, ◌==◌, ◌<◌, ◌≤◌, Some, All, IfNone, IfSome, length, take, slice_get};
ghost use Rattle.std.specs.List.{list_any};

// So many numbers are looked at together.
const BLOCK: usize = 8;

/// The place of a channel's number among those of all; `None` exactly where it isn't there.
pub(crate) fn place_of(ids: &[u16], id: u16) -> Option<usize>
    ensures there { IfSome result (λ place. slice_get ids.now place ≡ Some id) }
    ensures none { IfNone result (All (λ k. k ≢ id) ids.now) }
{
    let from = passed(ids, id);
    let (_, rest) = ids.split_at(from);
    match place_in(rest, id) {
        Some(place) => Some(from + place),
        None => None,
    }
}

// The same, by a look at one after another.
#[inline]
fn place_in(ids: &[u16], id: u16) -> Option<usize>
    ensures there { IfSome result (λ place. slice_get ids.now place ≡ Some id) }
    ensures within { IfSome result (λ place. place < length ids.now) }
    ensures none { IfNone result (All (λ k. k ≢ id) ids.now) }
{
    ids.iter().position(|k| *k == id)
}

// How many numbers stand in front of a block with this one; it is none of them.
#[inline]
fn passed(ids: &[u16], id: u16) -> usize
    ensures within { result ≤ length ids.now }
    ensures none { All (λ k. k ≢ id) (take result ids.now) }
{
    let mut from = 0;
    while ids.len() - from >= BLOCK {
        let (_, rest) = ids.split_at(from);
        let (block, _) = rest.split_at(BLOCK);
        if has(block, id) {
            return from;
        }
        from += BLOCK;
    }
    from
}

// Whether one of the numbers is this one. It goes through all of them, which takes a few vector instructions.
#[inline]
fn has(block: &[u16], id: u16) -> bool
    ensures { result ≡ list_any (λ k. k == id) block.now }
{
    let mut is_any = false;
    for k in block {
        is_any |= *k == id;
    }
    is_any
}
