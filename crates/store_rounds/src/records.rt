//! The records that a turn takes on.
ghost use Rattle.std.specs.Prelude.{◌≡◌, ◌+◌, ◌<◌, ◌≤◌, ℕ, if◌then◌else◌, length, nat_le};
ghost use Rattle.heap_model.specs.Log.{log_from};
ghost use Rattle.store_memory.specs.Limits.{AreWithin, FitWords};
ghost use Rattle.store_rounds.specs.Turns.{threads_fresh};

use heap_model::{Lane, NewRecords, UndoRecord};
use store_memory::Applied;

/// What the threads applied and isn't logged, by lane. In the lane behind the threads', the helper's, there is none.
#[derive(Clone, Copy)]
pub(crate) struct ThreadsRecords<'a> {
    pub(crate) threads: u8,
    pub(crate) applied: &'a Applied,
}

impl<'a> NewRecords for ThreadsRecords<'a> {
    ghost lanes = { λ x. if nat_le x.threads (length x.applied.now.lanes) then x.threads + 1 else length x.applied.now.lanes };

    ghost fresh = { λ x l. threads_fresh x.threads x.applied.now l };

    fn of(&self, lane: Lane) -> &[UndoRecord] {
        if lane.0 < self.threads {
            self.applied.of(lane)
        } else {
            &[]
        }
    }
}

/// The records that were applied are within the lanes' limits.
pub(crate) fn limits_law(applied: &Applied)
    ensures words { FitWords (log_from applied.now.fresh) }
    ensures within { AreWithin applied.now }
{
    let _fresh = applied.fresh();
}
