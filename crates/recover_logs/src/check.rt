//! Whether lanes' live records are logs that threads can have left.
ghost use Rattle.std.specs.Prelude.{◌≤◌, ℕ, All, IfErr, IfOk, length};
ghost use Rattle.recover_logs.specs.Limits.{IsInRange, IsOfObjects};
ghost use Rattle.recover_logs.specs.Logs.{guard_in, records_of};
ghost use Rattle.recover_logs.specs.Settled.{AreWithin, IsPlaceIn, TestsLogs};
ghost use Rattle.recover_logs.specs.Tables.{AreReplay, IsLow};

use crate::error::LogsError;
use crate::replay::replay;
use crate::settled::least_restless;
use crate::settled_count::SettledCount;
use crate::step::Step;
use crate::walk::least_crossing;
use heap_model::{ObjectId, UndoRecord};
use std::alloc::Global;

/// Tests the lanes' live records, and answers them in the order in which they were replayed, the oldest first. By field,
/// `guards` has the object that guards it, or `None` where logs keep no store of the field, and by lane `counts` up to where
/// it is settled.
///
/// `IllegalLog` comes from three tests, in this order:
/// - The records are replayed. At first all monitors are free, and each object has the least number at which a live record
///   takes it. A lane takes a free object at its number. It frees an object that it holds from its number, which raises that
///   by one. It stores to a field whose guard it holds and whose stores logs keep. After a wait's release it takes the same
///   object again. Again and again the least lane that can go on does its next record. If none can and records are left, the
///   refusal names the least lane with records left, and the place of its first one.
/// - A lane is settled up to a place where it holds something, or keeps fewer sections than ended before that place. The
///   refusal names the least such lane, and that place.
/// - A settled record takes what a record that isn't settled freed. The refusal names the least lane with a record of that
///   kind, and the place of its first one.
///
/// `NoMemory` comes where there is no room for the replay. The time is linear in the records, for each of which the lanes
/// are looked at once.
pub fn check_logs(
    alloc: Global,
    guards: &[Option<ObjectId>],
    counts: &[SettledCount; 32],
    logs: &[Vec<UndoRecord>],
) -> Result<Vec<Step>, LogsError>
    requires lanes { length logs.now ≤ 32 }
    requires objects { (l : ℕ) → All (IsOfObjects (guard_in guards.now) 4096) (records_of logs.now l) }
    requires range { (l : ℕ) → All IsInRange (records_of logs.now l) }
    requires within { AreWithin counts.now logs.now }
    // Logs are accepted exactly where they are those of a legal list, whose acknowledged sections are whole and depend
    // on acknowledged ones alone. Others are refused with the lane and the place where that shows first.
    ensures exact { TestsLogs guards.now counts.now logs.now result }
    // The place of a refusal is one of the logs.
    ensures there { IfErr result (IsPlaceIn logs.now) }
    // Accepted logs are replayed to their end, from the least numbers that fit.
    ensures replays { IfOk result (λ steps. AreReplay guards.now logs.now steps.items) }
    ensures low { IfOk result (λ steps. All IsLow steps.items) }
{
    let steps = replay(alloc, guards, logs)?;
    if let Some(lane) = least_restless(counts, logs) {
        return Err(LogsError::IllegalLog {
            lane,
            place: counts[usize::from(lane.0)].records as u64,
        });
    }
    if let Some(found) = least_crossing(counts, &steps) {
        return Err(LogsError::IllegalLog {
            lane: found.lane,
            place: found.place as u64,
        });
    }
    Ok(steps)
}
