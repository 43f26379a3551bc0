//! Copying of bytes.
ghost use Rattle.std.specs.Prelude.{◌≡◌, ◌++◌, ◌<◌, [], drop, length, min, take};

// Copies the first bytes of `from` to the front of `to`, as many as both have and at most `most`,
// and says how many.
pub(crate) fn copy_front(from: &[u8], to: &mut [u8], most: usize) -> usize
    ensures count { result ≡ min most (min (length from.now) (length to.old)) }
    ensures copied { to.new ≡ take result from.now ++ drop result to.old }
    ensures front { from.now ≡ take result to.new ++ drop result from.now }
    ensures none { result ≡ 0 → 0 < most → 0 < length to.new → from.now ≡ [] }
{
    let count = most.min(from.len().min(to.len()));
    to[..count].copy_from_slice(&from[..count]);
    count
}
