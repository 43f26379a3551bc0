//! How often a wire failed.
ghost use Rattle.std.specs.Prelude.{◌≡◌, ◌+◌, ◌-◌, ◌^◌, ◌≤◌, min};

use ram_io::Failed;

// Counts the faults of a wire; the count stops at 2^64 - 1.
#[derive(Drop)]
pub(crate) struct Faults {
    count: u64,
}

impl Faults {
    pub(crate) fn none() -> Faults
        ensures { result.count ≡ 0 }
    {
        Faults { count: 0 }
    }

    // Counts one more.
    pub(crate) fn rise(&mut self) -> Failed
        ensures counted { self.new.count ≡ min (self.old.count + 1) (2 ^ 64 - 1) }
        ensures later { self.old.count ≤ self.new.count }
    {
        self.count = self.count.saturating_add(1);
        Failed
    }
}
