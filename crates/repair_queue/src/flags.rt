//! Where flags are set.
ghost use Rattle.std.specs.Prelude.{◌≡◌, ◌≤◌, ◌<◌, ◌-◌, not, true, false, length, drop, slice_index_or};
ghost use Rattle.std.specs.List.{list_any};

use crate::block::is_any_set;

/// So many flags are looked at together.
pub(crate) const FLAGS: usize = 8;

/// One above the place of the last flag that is set; 0 where none is.
pub(crate) fn end_of_set(done: &[bool]) -> usize
    ensures within { result ≤ length done.now }
    ensures set { 0 < result → slice_index_or done.now (result - 1) false ≡ true }
    ensures unset { list_any (λ is_done. is_done) (drop result done.now) ≡ false }
{
    let mut end = end_of_blocks(done);
    while end > 0 {
        if done[end - 1] {
            return end;
        }
        end -= 1;
    }
    end
}

// The flags without the last whole blocks in which none is set: how many there are.
fn end_of_blocks(done: &[bool]) -> usize
    ensures within { result ≤ length done.now }
    ensures unset { list_any (λ is_done. is_done) (drop result done.now) ≡ false }
{
    let mut end = done.len();
    while end >= FLAGS {
        if is_any_set(&done[end - FLAGS..end]) {
            return end;
        }
        end -= FLAGS;
    }
    end
}

/// The flags without the last ones that are set: how many there are.
pub(crate) fn start_of_set(done: &[bool]) -> usize
    ensures within { result ≤ length done.now }
    ensures set { list_any (λ is_done. not is_done) (drop result done.now) ≡ false }
{
    let mut start = done.len();
    while start > 0 {
        if !done[start - 1] {
            return start;
        }
        start -= 1;
    }
    start
}
