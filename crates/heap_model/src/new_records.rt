//! The records that were applied and not yet logged.
ghost use Rattle.std.specs.Prelude.{◌≡◌, ◌<◌, ℕ, List};
ghost use Rattle.heap_model.specs.declared.record.UndoRecord.{UndoRecord as AnyRecord};

use crate::{Lane, UndoRecord};

/// The lanes' records that were applied and not yet logged, as a store keeps them.
pub trait NewRecords {
    /// How many lanes there are.
    ghost lanes: { Self → ℕ };

    /// By lane, the oldest first.
    ghost fresh: { Self → ℕ → List AnyRecord };

    /// Those of this lane, the oldest first.
    fn of(&self, lane: Lane) -> &[UndoRecord]
        requires { lane.0 < lanes self.now }
        ensures { result.now ≡ fresh self.now lane.0 };
}
