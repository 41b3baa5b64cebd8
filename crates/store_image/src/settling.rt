//! The stable cut is acknowledged.
ghost use Rattle.std.specs.Prelude.{◌≡◌, ◌<◌, ◌≤◌, ℕ, length, slice_index};
ghost use Rattle.undo_log.specs.StandsFor.{row_of};
ghost use Rattle.store_image.specs.Promises.{Settles};
ghost use Rattle.store_image.specs.Steps.{CanSettle};

use crate::commit::commit;
use crate::committed::Committed;
use crate::sync::sync;
use block_disk::Disk;
use heap_model::{Cut, StoreError};
use image::{LaneRow, Layout};

/// Makes the home cells durable, and then the control that acknowledges this cut; `places` has, by lane, the place after
/// its last section. It takes a sync and the calls of a commit.
///
/// Refusals, in this order:
/// - `Worn`: the control's sequence is at its last value, 2^64 - 1. The device isn't called;
/// - `Fault`: a call failed. A crash may leave either control.
pub fn settle<D: Disk>(
    disk: &mut D,
    layout: &Layout,
    committed: &mut Committed,
    cut: &Cut,
    places: &[u64; 32],
) -> Result<(), StoreError>
    requires settles { CanSettle layout.now committed.old (D.device disk.old) cut.now places.now }
    // The cut is acknowledged.
    ensures { Settles D.device layout.now cut.now places.now committed.old disk.old
        committed.new disk.new result }
{
    if committed.sequence == u64::MAX {
        return Err(StoreError::Worn);
    }
    // The home cells have to be durable before the control that gives up the undo records of what it acknowledges.
    match sync(disk) {
        Ok(()) => {
            let rows = settled_rows(layout.lanes, &committed.rows, &cut.counts, places);
            // From here on a crash may leave the new cut.
            commit(disk, layout, committed, &rows)
        }
        Err(reason) => Err(reason),
    }
}

/// The rows with so many acknowledged sections in each lane, and the place after the last of them.
pub(crate) fn settled_rows(
    lanes: u8,
    rows: &[LaneRow; 32],
    counts: &[u64; 32],
    places: &[u64; 32],
) -> [LaneRow; 32]
    requires { lanes ≤ 32 }
    ensures lanes { (lane : ℕ) → lane < lanes
        → row_of result lane
        ≡ record (row_of rows.now lane)
        { settled = slice_index places.now lane; kept = slice_index counts.now lane } }
    ensures rest { (lane : ℕ) → lanes ≤ lane → row_of result lane ≡ row_of rows.now lane }
    ensures size { length result ≡ length rows.now }
{
    let mut next = *rows;
    for lane in 0..usize::from(lanes) {
        next[lane] = LaneRow {
            settled: places[lane],
            kept: counts[lane],
            ..rows[lane]
        };
    }
    next
}
