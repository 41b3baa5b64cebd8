//! Whether an image's live records are logs that threads can have left.
ghost use Rattle.std.specs.Prelude.{◌≡◌, ◌-◌, ℕ, All, IfErr, IfOk};
ghost use Rattle.image_parts.specs.Control.{AreRows};
ghost use Rattle.image_parts.specs.Layout.{IsLayout};
ghost use Rattle.undo_log.specs.StandsFor.{settled_of};
ghost use Rattle.recover_logs.specs.Logs.{guard_in as guard_among, count_of};
ghost use Rattle.recover_logs.specs.Tables.{IsLow};
ghost use Rattle.recover_heap.specs.Logs.{AreGuards, AreLoggable, AreReplayOf, logged_guard as logged, logged_guard_in};
ghost use Rattle.recover.specs.Settled.{TestsLive, kept_of};
ghost use Rattle.recover_heap.specs.declared.error.RecoverError.TheVariants.{NoMemory};

use heap_model::{ObjectId, UndoRecord};
use image::{GuardRow, LaneRow, Layout};
use recover_heap::RecoverError;
use recover_logs::{LogsError, SettledCount, Step};
use std::alloc::Global;

/// Tests the lanes' live records, which are those of an image with these guard rows and these rows of its control, and
/// answers them in the order in which they were replayed, the oldest first.
///
/// `IllegalLog` comes from the three tests of [`recover_logs::check_logs`], in their order, with the place of the image that
/// each names. `NoMemory` comes where there is no room for the guards or for the replay.
pub fn check_logs(
    alloc: Global,
    layout: &Layout,
    guards: &[GuardRow],
    rows: &[LaneRow; 32],
    logs: &[Vec<UndoRecord>],
) -> Result<Vec<Step>, RecoverError>
    requires limits { IsLayout layout.now }
    requires guards { AreGuards layout.now guards.now }
    requires rows { AreRows layout.now rows.now }
    requires logs { AreLoggable layout.now rows.now logs.now }
    ensures exact { TestsLive guards.now rows.now logs.now result }
    ensures replays { IfOk result (λ steps. AreReplayOf guards.now logs.now steps.items) }
    ensures low { IfOk result (λ steps. All IsLow steps.items) }
{
    let objects = guarding_objects(alloc, guards)?;
    match recover_logs::check_logs(alloc, &objects, &settled_counts(rows), logs) {
        Ok(steps) => Ok(steps),
        Err(LogsError::IllegalLog { lane, place }) => Err(RecoverError::IllegalLog {
            lane,
            place: rows[usize::from(lane.0)].start + place,
        }),
        Err(LogsError::NoMemory) => Err(RecoverError::NoMemory),
    }
}

// By field: the object that guards it, if logs keep its stores.
fn guarding_objects(
    alloc: Global,
    guards: &[GuardRow],
) -> Result<Vec<Option<ObjectId>>, RecoverError>
    ensures ok { IfOk result (λ objects. (f : ℕ)
        → guard_among objects.items f ≡ logged_guard_in guards.now f) }
    ensures no_other { IfErr result (λ e. e ≡ NoMemory) }
{
    let Ok(mut objects) = Vec::with_capacity(alloc, guards.len()) else {
        return Err(RecoverError::NoMemory);
    };
    for row in guards {
        objects.push_reserved(logged_guard(row));
    }
    Ok(objects)
}

// The object whose monitor the logged stores of the row's field need. Logs keep no store of a transient one.
fn logged_guard(row: &GuardRow) -> Option<ObjectId>
    ensures { result ≡ logged row.now }
{
    if row.transient { None } else { Some(row.guard) }
}

// By lane: how many of its live records are settled, and how many sections the control keeps.
fn settled_counts(rows: &[LaneRow; 32]) -> [SettledCount; 32]
    ensures { (l : ℕ) → count_of result l
        ≡ record { records = settled_of rows.now l; sections = kept_of rows.now l } }
{
    let mut counts = [SettledCount {
        records: 0,
        sections: 0,
    }; 32];
    for lane in 0..32 {
        counts[lane] = settled_count(rows[lane]);
    }
    counts
}

fn settled_count(row: LaneRow) -> SettledCount
    ensures { result ≡ record { records = row.settled - row.start; sections = row.kept } }
{
    SettledCount {
        records: row.settled.saturating_sub(row.start) as usize,
        sections: row.kept,
    }
}
