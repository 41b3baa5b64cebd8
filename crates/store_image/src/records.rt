//! The lanes' new records reach the device.
ghost use Rattle.std.specs.Prelude.{◌≡◌, ◌<◌, ◌≤◌, ℕ, IfErr, OnOk, length};
ghost use Rattle.block_disk.specs.Since.{HasCauseSince, LeavesBut};
ghost use Rattle.image_parts.specs.Calls.{after};
ghost use Rattle.image_parts.specs.Layout.{IsLayout, size_of};
ghost use Rattle.image_parts.specs.Rows.{IsRow};
ghost use Rattle.undo_log.specs.Area.{HasRecords, record_ranges, record_writes};
ghost use Rattle.undo_log.specs.StandsFor.{row_of};
ghost use Rattle.store_image.specs.NewRecords.{FitsLane, HasFresh, fresh_ranges};
ghost use Rattle.heap_model.specs.declared.store_error.StoreError.TheVariants.{Fault};

use block_disk::Disk;
use heap_model::{Lane, NewRecords, StoreError, UndoRecord};
use image::{LaneRow, Layout};
use undo_log::append;

/// Writes the lanes' new records, lane by lane, from the place in each row's `logged` on. `Fault` is the one refusal.
pub fn append_lanes<D: Disk, F: NewRecords>(
    disk: &mut D,
    layout: &Layout,
    rows: &[LaneRow; 32],
    fresh: &F,
) -> Result<(), StoreError>
    requires limits { IsLayout layout.now }
    requires room { size_of layout.now ≤ length (D.device disk.old).now.bytes }
    requires lanes { layout.now.lanes ≤ F.lanes fresh.now }
    requires rows { (lane : ℕ) → lane < layout.now.lanes
        → IsRow layout.now.capacity (row_of rows.now lane) }
    requires fits { (lane : ℕ) → lane < layout.now.lanes
        → FitsLane layout.now (row_of rows.now lane) (F.fresh fresh.now lane) }
    // After a success the lanes' new records stand at these places, and nothing else has changed.
    ensures ok { OnOk result (HasFresh layout.now rows.now (F.fresh fresh.now) layout.now.lanes
        (D.device disk.old).now.bytes (D.device disk.new).now.bytes) }
    ensures only_fault { IfErr result (λ e. e ≡ Fault) }
    // At each moment a crash leaves what it might have left before, but for the bytes at these places.
    ensures any_moment { LeavesBut
        (fresh_ranges layout.now rows.now (F.fresh fresh.now) layout.now.lanes)
        (D.device disk.old) (D.device disk.new) }
    ensures cause { HasCauseSince (D.device disk.old) (D.device disk.new) Fault result }
{
    for lane in 0..layout.lanes {
        append_lane(
            disk,
            layout,
            Lane(lane),
            &rows[usize::from(lane)],
            fresh.of(Lane(lane)),
        )?;
    }
    Ok(())
}

// Writes the records from the place in the row's `logged` on.
fn append_lane<D: Disk>(
    disk: &mut D,
    layout: &Layout,
    lane: Lane,
    row: &LaneRow,
    records: &[UndoRecord],
) -> Result<(), StoreError>
    requires limits { IsLayout layout.now }
    requires room { size_of layout.now ≤ length (D.device disk.old).now.bytes }
    requires lane { lane.0 < layout.now.lanes }
    requires row { IsRow layout.now.capacity row.now }
    requires fits { FitsLane layout.now row.now records.now }
    ensures written { OnOk result
        (D.device disk.new ≡ after (record_writes layout.now lane.0 row.now.logged records.now)
        (D.device disk.old)) }
    ensures ok { OnOk result (HasRecords layout.now lane.0 row.now.logged
        (D.device disk.new).now.bytes records.now) }
    ensures only_fault { IfErr result (λ e. e ≡ Fault) }
    ensures any_moment { LeavesBut
        (record_ranges layout.now lane.0 row.now.logged (length records.now))
        (D.device disk.old) (D.device disk.new) }
    ensures cause { HasCauseSince (D.device disk.old) (D.device disk.new) Fault result }
{
    // An idle lane costs a look.
    if records.is_empty() {
        return Ok(());
    }
    match append(disk, layout, lane, row, records) {
        Ok(()) => Ok(()),
        Err(_) => Err(StoreError::Fault),
    }
}
