//! The live records of a study's lanes.
ghost use Rattle.std.specs.Prelude.{◌≡◌};
ghost use Rattle.recover_heap.specs.Logs.{records_of};

use heap_model::{Lane, UndoRecord};

/// The lane's live records, the oldest first. A lane that isn't there has none.
pub(crate) fn records_in(logs: &[Vec<UndoRecord>], lane: Lane) -> &[UndoRecord]
    ensures { result.now ≡ records_of logs.now lane.0 }
{
    match logs.get(usize::from(lane.0)) {
        Some(records) => records,
        None => &[],
    }
}
