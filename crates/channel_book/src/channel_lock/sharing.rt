//! A lock as what several callers share.
use crate::channel_lock::lock::ChannelLock;
use crate::channel_lock::pass::Pass;
use crate::{Answer, Event, NoMemory, Shared};
use std::alloc::Global;
use std::sync::Wait;

impl Shared for ChannelLock {
    ghost use Rattle.std.specs.Prelude.{◌≡◌};

    type Pass = Pass;

    ghost made = { λ lock pass. pass.lock ≡ lock.lock };

    ghost settings = { λ pass. pass.settings };

    ghost list = { λ pass. pass.list };

    ghost seen = { λ pass. pass.seen };

    ghost left = { λ pass. pass.left };

    fn step_all<R: Wait>(
        &self,
        rt: &R,
        alloc: Global,
        pass: &mut Pass,
        events: Vec<Event>,
    ) -> Result<(u64, Vec<Answer>), NoMemory> {
        self.take_all(rt, alloc, pass, events)
    }
}
