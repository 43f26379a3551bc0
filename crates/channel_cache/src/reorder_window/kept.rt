//! Searches in a list of items by rising number.
ghost use Rattle.std.specs.Prelude.{◌≡◌, ℕ, ◌+◌, ◌^◌, ◌<◌, ◌≤◌, nat_lt, length, vec_len, vec_capacity};
ghost use Rattle.std.specs.List.{position_or_len};
ghost use Rattle.channel_cache.specs.reorder_window.{has_number, with_item, next_missing};

/// Whether an item with this number is kept.
pub fn is_kept<T>(kept: &[(u64, T)], n: u64) -> bool
    ensures { result ≡ has_number n kept.now }
{
    kept.iter().any(|e| e.0 == n)
}

/// Puts an item in front of those with greater numbers. There is room for it.
pub fn put<T: Drop>(kept: &mut Vec<(u64, T)>, n: u64, item: T)
    requires room { vec_len kept.old < vec_capacity kept.old }
    ensures items { kept.new.items ≡ with_item n item kept.old.items }
    ensures capacity { vec_capacity kept.old ≤ vec_capacity kept.new }
{
    let place = place_of(kept, n);
    let _ = kept.insert(place, (n, item));
}

// The place of the first item with a greater number, behind all where there is none.
fn place_of<T>(kept: &[(u64, T)], n: u64) -> usize
    ensures within { result ≤ length kept.now }
    ensures place { result ≡ position_or_len (λ e. nat_lt n e.0) kept.now }
{
    for (i, e) in kept.iter().enumerate() {
        if n < e.0 {
            return i;
        }
    }
    kept.len()
}

/// The least number from `from` on that none of the items has.
pub fn missing_from<T>(kept: &[(u64, T)], from: u64) -> u64
    requires small { from + length kept.now < 2 ^ 64 }
    ensures { result ≡ next_missing from kept.now }
{
    let mut n = from;
    for e in kept {
        if e.0 == n {
            n += 1;
        }
    }
    n
}
