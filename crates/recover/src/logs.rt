//! The lanes' live records, read from the image.
ghost use Rattle.std.specs.Prelude.{◌<◌, ◌≤◌, length};
ghost use Rattle.block_disk.specs.Device.{SameMoments};
ghost use Rattle.block_disk.specs.Since.{HasCauseSince};
ghost use Rattle.image_parts.specs.Control.{AreRows};
ghost use Rattle.image_parts.specs.Layout.{IsLayout, size_of};
ghost use Rattle.image_parts.specs.Rows.{IsRow};
ghost use Rattle.recover_heap.specs.Logs.{ReadsLane, ReadsLogs};
ghost use Rattle.recover_heap.specs.declared.error.RecoverError.TheVariants.{Fault};

use block_disk::Disk;
use heap_model::{Lane, UndoRecord};
use image::{LaneRow, Layout};
use recover_heap::RecoverError;
use std::alloc::Global;
use undo_log::LogError;

/// The live records of each lane of the image, the oldest first: those of the places from `start` up to `logged`. The
/// rows are those of the image's control.
///
/// `BadRecord` names the least lane with a live place whose bytes are no record of the image, and its least such place;
/// `NoMemory` comes where there is no room for a lane's records; `Fault` comes where a read fails. The device is left as
/// it was.
pub fn read_logs<D: Disk>(
    alloc: Global,
    disk: &mut D,
    layout: &Layout,
    rows: &[LaneRow; 32],
) -> Result<Vec<Vec<UndoRecord>>, RecoverError>
    requires limits { IsLayout layout.now }
    requires fits { size_of layout.now ≤ length (D.device disk.old).now.bytes }
    requires rows { AreRows layout.now rows.now }
    ensures exact { ReadsLogs layout.now (D.device disk.old).now.bytes rows.now result }
    ensures same { SameMoments (D.device disk.old) (D.device disk.new) }
    ensures cause { HasCauseSince (D.device disk.old) (D.device disk.new) Fault result }
{
    let Ok(mut logs) = Vec::with_capacity(alloc, usize::from(layout.lanes)) else {
        return Err(RecoverError::NoMemory);
    };
    for lane in 0..layout.lanes {
        let row = rows[usize::from(lane)];
        let records = read_lane(alloc, disk, layout, Lane(lane), &row)?;
        logs.push_reserved(records);
    }
    Ok(logs)
}

// The lane's live records.
fn read_lane<D: Disk>(
    alloc: Global,
    disk: &mut D,
    layout: &Layout,
    lane: Lane,
    row: &LaneRow,
) -> Result<Vec<UndoRecord>, RecoverError>
    requires limits { IsLayout layout.now }
    requires fits { size_of layout.now ≤ length (D.device disk.old).now.bytes }
    requires lane { lane.0 < layout.now.lanes }
    requires row { IsRow layout.now.capacity row.now }
    ensures exact { ReadsLane layout.now (D.device disk.old).now.bytes lane row.now result }
    ensures same { SameMoments (D.device disk.old) (D.device disk.new) }
    ensures cause { HasCauseSince (D.device disk.old) (D.device disk.new) Fault result }
{
    match undo_log::read(alloc, disk, layout, lane, row.start, row.logged) {
        Ok(records) => Ok(records),
        Err(LogError::Fault) => Err(RecoverError::Fault),
        Err(LogError::BadRecord { lane, place }) => Err(RecoverError::BadRecord { lane, place }),
        Err(LogError::NoMemory) => Err(RecoverError::NoMemory),
        Err(LogError::LogFull { .. }) => unreachable!(),
    }
}
