//! New records become durable.
ghost use Rattle.std.specs.Prelude.{◌≡◌, ◌+◌, ◌-◌, ◌<◌, ◌≤◌, ◌^◌, ℕ, IfErr, OnErr, OnOk, length};
ghost use Rattle.block_disk.specs.Images.{LeavesOnly};
ghost use Rattle.block_disk.specs.Since.{HasCauseSince, LeavesBut};
ghost use Rattle.heap_model.specs.Past.{Past, after_log};
ghost use Rattle.heap_model.specs.Setting.{Setting};
ghost use Rattle.undo_log.specs.StandsFor.{row_of};
ghost use Rattle.store_image.specs.Consistent.{IsConsistent};
ghost use Rattle.store_image.specs.NewRecords.{fresh_count};
ghost use Rattle.store_image.specs.Promises.{LogsAll, LogsRecords};
ghost use Rattle.store_image.specs.Steps.{CanLog, MayLog, step_ranges};
ghost use Rattle.store_image.specs.Sequences.{ShowsUpTo};
ghost use Rattle.heap_model.specs.declared.store_error.StoreError.TheVariants.{Fault};

use crate::commit::commit;
use crate::committed::Committed;
use crate::records::append_lanes;
use crate::sync::sync;
use block_disk::Disk;
use heap_model::{Lane, NewRecords, StoreError};
use image::{LaneRow, Layout};

/// Makes the lanes' new records durable, and then the control that counts them. Returns how many there were. It takes a
/// write for each record, a sync and the calls of a commit; with no record it takes no call.
///
/// Refusals, in this order:
/// - `Worn`: there are records, and the control's sequence is at its last value, 2^64 - 1. The device isn't called;
/// - `Fault`: a call failed. A crash may leave either control.
pub fn log_records<D: Disk, F: NewRecords>(
    disk: &mut D,
    layout: &Layout,
    committed: &mut Committed,
    fresh: &F,
) -> Result<u64, StoreError>
    requires lanes { layout.now.lanes ≤ F.lanes fresh.now }
    requires logs { CanLog layout.now committed.old (D.device disk.old) (F.fresh fresh.now) }
    // New records become durable, and count.
    ensures { LogsRecords D.device layout.now (F.fresh fresh.now) committed.old disk.old
        committed.new disk.new result }
{
    let count = count_fresh(layout.lanes, fresh);
    if count == 0 {
        return Ok(0);
    }
    if committed.sequence == u64::MAX {
        return Err(StoreError::Worn);
    }
    match log_all(disk, layout, committed, fresh) {
        Ok(()) => Ok(count),
        Err(reason) => Err(reason),
    }
}

// How many there are in the lanes below `lanes`.
fn count_fresh<F: NewRecords>(lanes: u8, fresh: &F) -> u64
    requires lanes { lanes ≤ F.lanes fresh.now }
    requires few { (lane : ℕ) → lane < lanes → length (F.fresh fresh.now lane) ≤ 1048576 }
    ensures { result ≡ fresh_count (F.fresh fresh.now) lanes }
{
    let mut count = 0;
    for lane in 0..lanes {
        count += fresh.of(Lane(lane)).len() as u64;
    }
    count
}

// Makes the lanes' new records durable, and then the control that counts them.
fn log_all<D: Disk, F: NewRecords>(
    disk: &mut D,
    layout: &Layout,
    committed: &mut Committed,
    fresh: &F,
) -> Result<(), StoreError>
    requires lanes { layout.now.lanes ≤ F.lanes fresh.now }
    requires sequence { committed.old.sequence < 2 ^ 64 - 1 }
    requires logs { CanLog layout.now committed.old (D.device disk.old) (F.fresh fresh.now) }
    ensures ok { (s : Setting) (p : Past)
        → MayLog layout.now s p committed.old (D.device disk.old) (F.fresh fresh.now)
        → OnOk result (IsConsistent layout.now s (after_log p) committed.new (D.device disk.new)) }
    ensures only_fault { IfErr result (λ e. e ≡ Fault) }
    ensures logs { (s : Setting) (p : Past)
        → MayLog layout.now s p committed.old (D.device disk.old) (F.fresh fresh.now)
        → LogsAll layout.now (D.device disk.old) (D.device disk.new) s p }
    ensures err { OnErr result (committed.new ≡ committed.old) }
    ensures sequence { committed.new.sequence ≤ committed.old.sequence + 1 }
    ensures any_sequence { LeavesOnly (D.device disk.old) (D.device disk.new)
        (ShowsUpTo layout.now (committed.old.sequence + 1)) }
    ensures within { LeavesBut (step_ranges layout.now) (D.device disk.old) (D.device disk.new) }
    ensures cause { HasCauseSince (D.device disk.old) (D.device disk.new) Fault result }
{
    append_lanes(disk, layout, &committed.rows, fresh)?;
    let rows = logged_rows(layout.lanes, &committed.rows, fresh);
    // The records have to be durable before the control that counts them.
    sync(disk)?;
    commit(disk, layout, committed, &rows)
}

// The rows with the new records counted.
fn logged_rows<F: NewRecords>(lanes: u8, rows: &[LaneRow; 32], fresh: &F) -> [LaneRow; 32]
    requires few { lanes ≤ 32 }
    requires lanes { lanes ≤ F.lanes fresh.now }
    requires limit { (lane : ℕ) → lane < lanes
        → (row_of rows.now lane).logged + length (F.fresh fresh.now lane) ≤ 2 ^ 63 }
    ensures lanes { (lane : ℕ) → lane < lanes
        → row_of result lane
        ≡ record (row_of rows.now lane) {
          logged = (row_of rows.now lane).logged + length
              (F.fresh fresh.now lane);
        } }
    ensures rest { (lane : ℕ) → lanes ≤ lane → row_of result lane ≡ row_of rows.now lane }
    ensures size { length result ≡ length rows.now }
{
    let mut next = *rows;
    for lane in 0..lanes {
        let row = rows[usize::from(lane)];
        next[usize::from(lane)] = LaneRow {
            logged: row.logged + fresh.of(Lane(lane)).len() as u64,
            ..row
        };
    }
    next
}
