//! A commit of the next control.
ghost use Rattle.std.specs.Prelude.{◌≡◌, ◌-◌, ◌<◌, ◌^◌, [], OnOk};
ghost use Rattle.image_parts.specs.Control.{AreRows};
ghost use Rattle.image_parts.specs.Layout.{IsLayout};
ghost use Rattle.store_image.specs.Promises.{CommitsNext, CommitsTurned, IsSteadyAt};

use crate::committed::Committed;
use block_disk::Disk;
use heap_model::StoreError;
use image::{LaneRow, Layout, commit_by_turning, commit_control};

/// Commits a control with these rows. At every moment a crash leaves the old control or the new one.
pub fn commit<D: Disk>(
    disk: &mut D,
    layout: &Layout,
    committed: &mut Committed,
    rows: &[LaneRow; 32],
) -> Result<(), StoreError>
    requires limits { IsLayout layout.now }
    requires rows { AreRows layout.now rows.now }
    requires steady { IsSteadyAt layout.now (D.device disk.old) committed.old }
    requires sequence { committed.old.sequence < 2 ^ 64 - 1 }
    // A commit makes the next sequence count, in the other slot.
    ensures commits { CommitsNext layout.now committed.old rows.now
        (D.device disk.old) committed.new (D.device disk.new) result }
{
    match commit_control(disk, layout, committed.slot, committed.sequence, rows) {
        Ok(slot) => {
            *committed = Committed {
                slot,
                sequence: committed.sequence + 1,
                rows: *rows,
            };
            Ok(())
        }
        Err(_) => Err(StoreError::Fault),
    }
}

/// Makes all that was written durable, and then commits a control with these rows by turning one gate; both by two syncs, or by
/// three where a device that no store of ours left has sequence 0 in the other slot and its gate open. The sequence is the next
/// one where that gate reads closed, and else the one in that slot.
///
/// At every moment a crash leaves the old control, or the new one over all that was written before.
pub fn commit_written<D: Disk>(
    disk: &mut D,
    layout: &Layout,
    committed: &mut Committed,
    rows: &[LaneRow; 32],
) -> Result<(), StoreError>
    requires limits { IsLayout layout.now }
    requires rows { AreRows layout.now rows.now }
    requires steady { IsSteadyAt layout.now (D.device disk.old) committed.old }
    requires sequence { committed.old.sequence < 2 ^ 64 - 1 }
    // A commit over what was written turns one gate.
    ensures commits { CommitsTurned layout.now committed.old rows.now
        (D.device disk.old) committed.new (D.device disk.new) result }
    // After a commit that turns one gate, nothing that was written is pending.
    ensures durable { OnOk result ((D.device disk.new).now.pending ≡ []) }
{
    match commit_by_turning(disk, layout, committed.slot, committed.sequence, rows) {
        Ok((slot, sequence)) => {
            *committed = Committed {
                slot,
                sequence,
                rows: *rows,
            };
            Ok(())
        }
        Err(_) => Err(StoreError::Fault),
    }
}
