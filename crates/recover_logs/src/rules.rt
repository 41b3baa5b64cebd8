//! What a lane may do to the monitors in a replay.
ghost use Rattle.std.specs.Prelude.{◌≡◌, ◌↔◌, ◌<◌, IsTrue};
ghost use Rattle.recover_logs.specs.Limits.{IsOfObjects};
ghost use Rattle.recover_logs.specs.Monitors.{IsAllowedBy};
ghost use Rattle.recover_logs.specs.Logs.{guard_in};

use crate::Monitors;
use crate::step::Step;
use heap_model::{ObjectId, UndoRecord};

/// Whether the lane may do the record: it takes a free object at its number, frees one that it holds from that number,
/// or stores to a field whose guard it holds, and whose stores logs keep.
pub fn is_allowed(monitors: &Monitors, guards: &[Option<ObjectId>], next: Step) -> bool
    requires objects { IsOfObjects (guard_in guards.now) 4096 next.entry }
    ensures { IsTrue result ↔ IsAllowedBy (guard_in guards.now) monitors.now next.lane.0 next.entry }
{
    match next.entry {
        UndoRecord::Put { field, .. } => {
            monitors.allows(next.lane, next.entry, guard_of(guards, field.0))
        }
        UndoRecord::Acq { .. } | UndoRecord::Rel { .. } | UndoRecord::WaitRel { .. } => {
            monitors.allows(next.lane, next.entry, None)
        }
    }
}

// The field's guard, if logs keep its stores.
fn guard_of(guards: &[Option<ObjectId>], field: u32) -> Option<ObjectId>
    ensures { result ≡ guard_in guards.now field }
{
    match guards.get(field as usize) {
        Some(guard) => *guard,
        None => None,
    }
}
