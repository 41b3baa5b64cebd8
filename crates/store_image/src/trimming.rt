//! What is acknowledged is no longer needed of the undo logs.
ghost use Rattle.std.specs.Prelude.{◌≡◌, ◌↔◌, ◌<◌, ◌≤◌, ℕ, IsTrue, length};
ghost use Rattle.block_disk.specs.Device.{Device};
ghost use Rattle.heap_model.specs.Past.{Past, IsTrimmed};
ghost use Rattle.heap_model.specs.Setting.{Setting};
ghost use Rattle.image_parts.specs.declared.layout.Layout.{Layout as Shape};
ghost use Rattle.undo_log.specs.StandsFor.{row_of};
ghost use Rattle.store_image.specs.Consistent.{IsConsistent};
ghost use Rattle.store_image.specs.Promises.{Trims};
ghost use Rattle.store_image.specs.Steps.{CanTrim};

use crate::commit::commit;
use crate::committed::Committed;
use block_disk::Disk;
use heap_model::StoreError;
use image::{LaneRow, Layout};

/// Whether all that is acknowledged was trimmed: then a trim has nothing to move.
pub fn is_trimmed(committed: &Committed) -> bool
    ensures { (l : Shape) (s : Setting) (p : Past) (d : Device) → IsConsistent l s p committed.now d
        → (IsTrue result ↔ IsTrimmed p) }
{
    start_settled(&committed.rows)
}

// Whether each lane starts after its settled records.
fn start_settled(rows: &[LaneRow; 32]) -> bool
    ensures { IsTrue result ↔ ((lane : ℕ) → lane < 32
        → (row_of rows.now lane).start ≡ (row_of rows.now lane).settled) }
{
    for lane in 0..32 {
        if rows[lane].start != rows[lane].settled {
            return false;
        }
    }
    true
}

/// Moves each lane's start to the place after its settled records, by one commit: then the places of these are free. Until the
/// control that says so is durable, recovery reads them.
///
/// Refusals, in this order:
/// - `Worn`: the control's sequence is at its last value, 2^64 - 1. The device isn't called;
/// - `Fault`: a call failed. A crash may leave either control, and the heap of the same cut.
pub fn trim<D: Disk>(
    disk: &mut D,
    layout: &Layout,
    committed: &mut Committed,
) -> Result<(), StoreError>
    requires trims { CanTrim layout.now committed.old (D.device disk.old) }
    // The records of what is acknowledged are given up.
    ensures { Trims D.device layout.now committed.old disk.old committed.new disk.new result }
{
    if committed.sequence == u64::MAX {
        return Err(StoreError::Worn);
    }
    let rows = trimmed_rows(layout.lanes, &committed.rows);
    commit(disk, layout, committed, &rows)
}

/// The rows with each lane's start after its settled records.
pub(crate) fn trimmed_rows(lanes: u8, rows: &[LaneRow; 32]) -> [LaneRow; 32]
    requires { lanes ≤ 32 }
    ensures lanes { (lane : ℕ) → lane < lanes
        → row_of result lane
        ≡ record (row_of rows.now lane) { start = (row_of rows.now lane).settled } }
    ensures rest { (lane : ℕ) → lanes ≤ lane → row_of result lane ≡ row_of rows.now lane }
    ensures size { length result ≡ length rows.now }
{
    let mut next = *rows;
    for lane in 0..usize::from(lanes) {
        next[lane] = LaneRow {
            start: rows[lane].settled,
            ..rows[lane]
        };
    }
    next
}
