//! What several callers share.
use ram_io::NoMemory;
use rams_model::{Answer, Event};
use std::alloc::Global;
use std::sync::Wait;

/// One channel that several callers step, each through a pass of its own. A pass knows the history as
/// its caller has seen it.
pub trait Shared {
    ghost use Rattle.std.specs.Prelude.{◌≡◌, ℕ, ◌+◌, ◌^◌, ◌<◌, ◌≤◌, List, length, IfOk, OnOk, MatchResult};
    ghost use Rattle.rams_model.specs.Service.{Settings};
    ghost use Rattle.channel_book.specs.declared.entry.Entry.{Entry};
    ghost use Rattle.channel_book.specs.{IsLegal, HasAnsweredAll, HasAnsweredFront};

    type Pass;

    /// This object made the pass.
    ghost made: { Self → Self.Pass → Type 0 };

    /// The settings of the channel.
    ghost settings: { Self.Pass → Settings };

    /// The list whose calls are made with the pass.
    ghost list: { Self.Pass → ℕ };

    /// The history as the pass has seen it.
    ghost seen: { Self.Pass → List Entry };

    /// How many calls are left.
    ghost left: { Self.Pass → ℕ };

    /// Takes some events in one turn, one after another: the place of the first in the history, and the
    /// answers. The others stand behind the first, with nothing between. The history that the pass has
    /// seen then begins with what it had seen, and ends with these entries; of the pass's own calls it has
    /// these more. After want of memory a front of the events was taken, and the rest is given up. May wait.
    fn step_all<R: Wait>(
        &self,
        rt: &R,
        alloc: Global,
        pass: &mut Self::Pass,
        events: Vec<Event>,
    ) -> Result<(u64, Vec<Answer>), NoMemory>
        requires made { made self.now pass.old }
        requires left { (0 < length events.items) × (length events.items ≤ left pass.old) }
        ensures made { made self.now pass.new }
        ensures settings { settings pass.new ≡ settings pass.old }
        ensures list { list pass.new ≡ list pass.old }
        ensures left { left pass.old ≤ left pass.new + length events.items }
        ensures told { MatchResult result
            (λ r. HasAnsweredAll (list pass.old) events.items (seen pass.old) r.0 r.1.items (seen pass.new))
            (λ _. HasAnsweredFront (list pass.old) events.items (seen pass.old) (seen pass.new)) }
        ensures places { IfOk result (λ r. r.0 + length events.items ≤ 2 ^ 40) }
        ensures legal { OnOk result (IsLegal (settings pass.new) (seen pass.new)) };
}
