//! The round.
ghost use Rattle.std.specs.Prelude.{◌≡◌, ◌<◌, ◌≤◌, ℕ, All, Contains, IfErr, OnOk, length};
ghost use Rattle.block_disk.specs.Since.{HasCauseSince, LeavesBut, ReadsSameBut};
ghost use Rattle.image_parts.specs.Cells.{HasCell};
ghost use Rattle.image_parts.specs.Layout.{IsLayout, size_of};
ghost use Rattle.image_parts.specs.Rows.{IsRow};
ghost use Rattle.undo_log.specs.Area.{HasRecords};
ghost use Rattle.undo_log.specs.StandsFor.{row_of};
ghost use Rattle.store_image.specs.NewRecords.{FitsLane};
ghost use Rattle.heap_model.specs.declared.store_error.StoreError.TheVariants.{Fault};
ghost use Rattle.store_round_image.specs.Promises.{TurnsRound};
ghost use Rattle.store_round_image.specs.Turning.{CanTurn, IsValueIn, fields_of, written_ranges};

use crate::cells::{HomeValue, write_cells};
use block_disk::Disk;
use heap_model::{NewRecords, StoreError};
use image::{LaneRow, Layout};
use store_image::{Committed, append_lanes, commit_written};

/// Writes these cells, and the lanes' new records from each row's `logged` of `from` on; makes both durable together with the body
/// of a control with these rows; and then turns the gate that makes it count. It takes two syncs.
///
/// Refusals, in this order:
/// - `Worn`: the control's sequence is at its last value, 2^64 - 1. The device isn't called;
/// - `Fault`: a call failed. A crash may leave either control.
pub fn turn_round<D: Disk, F: NewRecords>(
    disk: &mut D,
    layout: &Layout,
    committed: &mut Committed,
    cells: &[HomeValue],
    from: &[LaneRow; 32],
    fresh: &F,
    rows: &[LaneRow; 32],
) -> Result<(), StoreError>
    requires lanes { layout.now.lanes ≤ F.lanes fresh.now }
    requires turns { CanTurn layout.now committed.old (D.device disk.old) cells.now from.now (F.fresh fresh.now) rows.now }
    // The new heap counts, with the later records.
    ensures { TurnsRound D.device layout.now cells.now from.now (F.fresh fresh.now) rows.now
        committed.old disk.old committed.new disk.new result }
{
    if committed.sequence == u64::MAX {
        return Err(StoreError::Worn);
    }
    match write_all(disk, layout, cells, from, fresh) {
        Ok(()) => commit_written(disk, layout, committed, rows),
        Err(reason) => Err(reason),
    }
}

// Writes these cells, and the lanes' new records.
fn write_all<D: Disk, F: NewRecords>(
    disk: &mut D,
    layout: &Layout,
    cells: &[HomeValue],
    from: &[LaneRow; 32],
    fresh: &F,
) -> Result<(), StoreError>
    requires limits { IsLayout layout.now }
    requires room { size_of layout.now ≤ length (D.device disk.old).now.bytes }
    requires lanes { layout.now.lanes ≤ F.lanes fresh.now }
    requires values { (heap : ℕ → ℕ) × All (IsValueIn layout.now heap) cells.now }
    requires rows { (lane : ℕ) → lane < layout.now.lanes
        → IsRow layout.now.capacity (row_of from.now lane) }
    requires fits { (lane : ℕ) → lane < layout.now.lanes
        → FitsLane layout.now (row_of from.now lane) (F.fresh fresh.now lane) }
    ensures cells { (heap : ℕ → ℕ) → All (IsValueIn layout.now heap) cells.now → OnOk result
        ((f : ℕ) → Contains (fields_of cells.now) f → HasCell layout.now f (D.device disk.new).now.bytes (heap f)) }
    ensures records { OnOk result ((lane : ℕ) → lane < layout.now.lanes
        → HasRecords layout.now lane (row_of from.now lane).logged (D.device disk.new).now.bytes (F.fresh fresh.now lane)) }
    ensures same { OnOk result (ReadsSameBut (written_ranges layout.now cells.now from.now (F.fresh fresh.now))
        (D.device disk.old) (D.device disk.new)) }
    ensures only_fault { IfErr result (λ e. e ≡ Fault) }
    ensures any_moment { LeavesBut (written_ranges layout.now cells.now from.now (F.fresh fresh.now))
        (D.device disk.old) (D.device disk.new) }
    ensures cause { HasCauseSince (D.device disk.old) (D.device disk.new) Fault result }
{
    write_cells(disk, layout, cells)?;
    append_lanes(disk, layout, from, fresh)
}
