//! Records written after the last of their lane.
ghost use Rattle.std.specs.Prelude.{◌≡◌, ◌⊎◌, ◌↔◌, ◌+◌, ◌-◌, ◌*◌, ◌%◌, ◌<◌, ◌≤◌, ◌^◌, length, All, IfErr, IsErrOf, OnOk};
ghost use Rattle.block_disk.specs.Since.{AlwaysBut, HasCauseSince, LeavesBut};
ghost use Rattle.image_parts.specs.Calls.{after};
ghost use Rattle.image_parts.specs.Layout.{IsLayout, size_of};
ghost use Rattle.image_parts.specs.Rows.{IsRow};
ghost use Rattle.undo_log.specs.RecordBytes.{run_bytes};
ghost use Rattle.undo_log.specs.Area.{IsLoggable, HasRecords, record_ranges, record_writes};
ghost use Rattle.undo_log.specs.declared.error.LogError.TheVariants.{Fault, LogFull};

use crate::error::LogError;
use crate::record_bytes::{RECORD_BYTES, encode_record};
use block_disk::{Disk, overwrite};
use heap_model::{Lane, UndoRecord};
use image_parts::{LaneRow, Layout};

/// How many records one call of the device takes at most.
const RUN_RECORDS: usize = 64;

const RUN_BYTES: usize = RUN_RECORDS * RECORD_BYTES;

/// Writes these records, the oldest first, at the places from the row's `logged` on, in one write each. Until the next
/// sync that succeeds, a crash may leave any bytes in those places; no live place is written.
///
/// Refusals:
/// - `LogFull`: the lane's live records and these are more than its area holds. The device isn't called;
/// - `Fault`: a write failed. Some of the places may be written.
pub fn append<D: Disk>(
    disk: &mut D,
    layout: &Layout,
    lane: Lane,
    row: &LaneRow,
    records: &[UndoRecord],
) -> Result<(), LogError>
    requires limits { IsLayout layout.now }
    requires fits { size_of layout.now ≤ length (D.device disk.old).now.bytes }
    requires lane { lane.0 < layout.now.lanes }
    requires row { IsRow layout.now.capacity row.now }
    requires records { All (IsLoggable layout.now) records.now }
    ensures written { OnOk result
        (D.device disk.new ≡ after (record_writes layout.now lane.0 row.now.logged records.now)
        (D.device disk.old)) }
    // After an append that answers Ok the lane's records stand after those before, in their order.
    ensures ok { OnOk result (HasRecords layout.now lane.0 row.now.logged
        (D.device disk.new).now.bytes records.now) }
    // An append is refused as `LogFull` exactly where the lane's area hasn't room for the records.
    ensures log_full { IsErrOf result (LogFull lane)
        ↔ (layout.now.capacity < row.now.logged - row.now.start + length records.now) }
    // An append that is refused as `LogFull` makes no call.
    ensures no_call { IsErrOf result (LogFull lane) → D.device disk.new ≡ D.device disk.old }
    ensures no_other { IfErr result (λ e. (e ≡ Fault) ⊎ (e ≡ LogFull lane)) }
    // After an append each image differs from what reads in the places of the new records alone.
    ensures crash { AlwaysBut (record_ranges layout.now lane.0 row.now.logged (length records.now))
        (D.device disk.old) (D.device disk.new) }
    // While records are appended each image differs from one of before in the places of the new records alone.
    ensures any_moment { LeavesBut
        (record_ranges layout.now lane.0 row.now.logged (length records.now))
        (D.device disk.old) (D.device disk.new) }
    ensures cause { HasCauseSince (D.device disk.old) (D.device disk.new) Fault result }
{
    let room = u64::from(layout.capacity) - (row.logged - row.start);
    if room < records.len() as u64 {
        return Err(LogError::LogFull { lane });
    }
    write_records(disk, layout, lane, row.logged, records)
}

// Writes the records at the places from `place` on. They are at most as many as the area holds, so no place is met twice.
fn write_records<D: Disk>(
    disk: &mut D,
    layout: &Layout,
    lane: Lane,
    place: u64,
    records: &[UndoRecord],
) -> Result<(), LogError>
    requires limits { IsLayout layout.now }
    requires fits { size_of layout.now ≤ length (D.device disk.old).now.bytes }
    requires lane { lane.0 < layout.now.lanes }
    requires place { place ≤ 2 ^ 63 }
    requires few { length records.now ≤ layout.now.capacity }
    requires records { All (IsLoggable layout.now) records.now }
    ensures written { OnOk result
        (D.device disk.new ≡ after (record_writes layout.now lane.0 place records.now)
        (D.device disk.old)) }
    ensures ok { OnOk result (HasRecords layout.now lane.0 place
        (D.device disk.new).now.bytes records.now) }
    ensures only_fault { IfErr result (λ e. e ≡ Fault) }
    ensures crash { AlwaysBut (record_ranges layout.now lane.0 place (length records.now))
        (D.device disk.old) (D.device disk.new) }
    ensures any_moment { LeavesBut (record_ranges layout.now lane.0 place (length records.now))
        (D.device disk.old) (D.device disk.new) }
    ensures cause { HasCauseSince (D.device disk.old) (D.device disk.new) Fault result }
{
    let _size = layout.size();
    // One for all runs: each begins by filling it anew.
    let mut bytes = [0; RUN_BYTES];
    let mut done = 0;
    while done < records.len() {
        let here = place + done as u64;
        let count = run_length(layout, here, records.len() - done);
        write_run(
            disk,
            layout,
            lane,
            here,
            &records[done..done + count],
            &mut bytes,
        )?;
        done += count;
    }
    Ok(())
}

// How many of so many records from `place` on one call takes: it ends where the lane's area does.
fn run_length(layout: &Layout, place: u64, left: usize) -> usize
    requires limits { IsLayout layout.now }
    requires some { 0 < left }
    ensures some { 0 < result }
    ensures block { result ≤ 64 }
    ensures within { result ≤ left }
    ensures in_area { place % layout.now.capacity + result ≤ layout.now.capacity }
{
    let capacity = u64::from(layout.capacity);
    let to_end = capacity - place % capacity;
    to_end.min(left as u64).min(RUN_RECORDS as u64) as usize
}

// Writes these records at the places from `place` on, in one call of the device: a write for each. Their bytes are put
// together in `bytes`, whatever it has.
fn write_run<D: Disk>(
    disk: &mut D,
    layout: &Layout,
    lane: Lane,
    place: u64,
    run: &[UndoRecord],
    bytes: &mut [u8; RUN_BYTES],
) -> Result<(), LogError>
    requires limits { IsLayout layout.now }
    requires fits { size_of layout.now ≤ length (D.device disk.old).now.bytes }
    requires lane { lane.0 < layout.now.lanes }
    requires some { 0 < length run.now }
    requires block { length run.now ≤ 64 }
    requires in_area { place % layout.now.capacity + length run.now ≤ layout.now.capacity }
    ensures written { OnOk result
        (D.device disk.new ≡ after (record_writes layout.now lane.0 place run.now)
        (D.device disk.old)) }
    ensures only_fault { IfErr result (λ e. e ≡ Fault) }
    ensures any_moment { LeavesBut (record_ranges layout.now lane.0 place (length run.now))
        (D.device disk.old) (D.device disk.new) }
    ensures cause { HasCauseSince (D.device disk.old) (D.device disk.new) Fault result }
{
    let bytes = &mut bytes[..RECORD_BYTES * run.len()];
    encode_run(run, bytes);
    disk.write_units(layout.record(lane, place), bytes, run.len())?;
    Ok(())
}

// The bytes of these records, one behind the other.
fn encode_run(run: &[UndoRecord], bytes: &mut [u8])
    requires { length bytes.old ≡ 16 * length run.now }
    ensures { bytes.new ≡ run_bytes run.now }
{
    for (i, entry) in run.iter().enumerate() {
        overwrite(bytes, (RECORD_BYTES * i) as u64, &encode_record(entry));
    }
}
