//! A lane's records, read back in runs.
ghost use Rattle.std.specs.Prelude.{◌≡◌, ◌↔◌, ◌+◌, ◌++◌, ◌*◌, ◌%◌, ◌<◌, ◌≤◌, IfErr, IfOk, IsTrue, MatchResult, OnOk, Some, length, take, vec_capacity, vec_len, min, ◌-◌};
ghost use Rattle.block_disk.specs.Device.{SameMoments};
ghost use Rattle.block_disk.specs.Since.{HasCauseSince};
ghost use Rattle.heap_model.specs.declared.record.UndoRecord.{UndoRecord as AnyRecord};
ghost use Rattle.image_parts.specs.Layout.{IsLayout, size_of};
ghost use Rattle.undo_log.specs.Area.{IsOfImage, SpellsIn, HasRecords, HasSpan, RefusesRead};
ghost use Rattle.undo_log.specs.Runs.{IsFull, HoldsFirst, BreaksAt};
ghost use Rattle.undo_log.specs.declared.error.LogError.TheVariants.{Fault};

use crate::error::LogError;
use crate::record_bytes::{RECORD_BYTES, decode_record};
use block_disk::{Disk, read_within};
use heap_model::{Lane, ObjectId, UndoRecord};
use image_parts::Layout;
use std::alloc::Global;

/// How many records one read of the device takes at most.
const RUN_RECORDS: usize = 256;

const RUN_BYTES: usize = 4096;

/// The lane's records of the places from `from` up to `to`, the oldest first. One read of the device takes up to 256 of
/// them; it ends where the lane's area does.
///
/// Refusals, in this order; the device is left as it was:
/// - `BadRecord`: the first place whose bytes are no record, or name an object or a field that the image doesn't have;
/// - `NoMemory`: there was no room for the records.
///
/// `Fault` comes where a read fails.
pub fn read<D: Disk>(
    alloc: Global,
    disk: &mut D,
    layout: &Layout,
    lane: Lane,
    from: u64,
    to: u64,
) -> Result<Vec<UndoRecord>, LogError>
    requires limits { IsLayout layout.now }
    requires fits { size_of layout.now ≤ length (D.device disk.old).now.bytes }
    requires lane { lane.0 < layout.now.lanes }
    requires order { from ≤ to }
    requires few { to ≤ from + layout.now.capacity }
    // Bytes are read as the lane's records between two places exactly where they spell them, and are else refused with
    // the place.
    ensures exact { MatchResult result
        (λ records. HasSpan layout.now lane.0 from to (D.device disk.old).now.bytes records.items)
        (RefusesRead layout.now lane from to (D.device disk.old).now.bytes) }
    ensures same { SameMoments (D.device disk.old) (D.device disk.new) }
    ensures cause { HasCauseSince (D.device disk.old) (D.device disk.new) Fault result }
{
    let count = (to - from) as usize;
    let Ok(mut records) = Vec::with_capacity(alloc, count) else {
        // Want of memory comes last: a bad record is told of first.
        check_records(disk, layout, lane, from, to)?;
        return Err(LogError::NoMemory);
    };
    let mut run = [NOTHING; RUN_RECORDS];
    while records.len() < count {
        let place = from + records.len() as u64;
        let found = read_run(disk, layout, lane, place, to, &mut run)?;
        put_behind(&mut records, &run[..found]);
    }
    Ok(records)
}

// What stands in a run before its first read.
const NOTHING: UndoRecord = UndoRecord::Acq {
    object: ObjectId(0),
    number: 0,
};

// Puts these records behind the others, for which there is room.
fn put_behind(records: &mut Vec<UndoRecord>, more: &[UndoRecord])
    requires { vec_len records.old + length more.now ≤ vec_capacity records.old }
    ensures items { records.new.items ≡ records.old.items ++ more.now }
    ensures capacity { vec_capacity records.old ≤ vec_capacity records.new }
{
    let Ok(()) = records.extend_from_slice(more) else {
        unreachable!()
    };
}

// Whether each of these places has a record of the image, with no memory taken.
fn check_records<D: Disk>(
    disk: &mut D,
    layout: &Layout,
    lane: Lane,
    from: u64,
    to: u64,
) -> Result<(), LogError>
    requires limits { IsLayout layout.now }
    requires fits { size_of layout.now ≤ length (D.device disk.old).now.bytes }
    requires lane { lane.0 < layout.now.lanes }
    requires order { from ≤ to }
    ensures ok { OnOk result (IsFull layout.now lane.0 from to (D.device disk.old).now.bytes) }
    ensures refused { IfErr result
        (RefusesRead layout.now lane from to (D.device disk.old).now.bytes) }
    ensures same { SameMoments (D.device disk.old) (D.device disk.new) }
    ensures cause { HasCauseSince (D.device disk.old) (D.device disk.new) Fault result }
{
    let mut run = [NOTHING; RUN_RECORDS];
    let mut place = from;
    while place < to {
        place += read_run(disk, layout, lane, place, to, &mut run)? as u64;
    }
    Ok(())
}

// Reads the records from `place` on, as far as one run goes, and tests them. Returns how many.
fn read_run<D: Disk>(
    disk: &mut D,
    layout: &Layout,
    lane: Lane,
    place: u64,
    to: u64,
    run: &mut [UndoRecord; 256],
) -> Result<usize, LogError>
    requires limits { IsLayout layout.now }
    requires fits { size_of layout.now ≤ length (D.device disk.old).now.bytes }
    requires lane { lane.0 < layout.now.lanes }
    requires order { place < to }
    ensures some { IfOk result (λ count. (0 < count) × (count ≤ 256) × (place + count ≤ to)) }
    ensures ok { IfOk result (λ count. HasRecords layout.now lane.0 place
        (D.device disk.old).now.bytes (take count run.new)) }
    ensures refused { IfErr result
        (RefusesRead layout.now lane place to (D.device disk.old).now.bytes) }
    ensures same { SameMoments (D.device disk.old) (D.device disk.new) }
    ensures cause { HasCauseSince (D.device disk.old) (D.device disk.new) Fault result }
{
    let count = run_length(layout, place, to);
    let records = &mut run[..count];
    let mut bytes = [0; RUN_BYTES];
    let bytes = &mut bytes[..RECORD_BYTES * records.len()];
    read_within(disk, layout.record(lane, place), bytes)?;
    match decode_run(layout, bytes, records) {
        Ok(()) => Ok(count),
        Err(bad) => Err(LogError::BadRecord {
            lane,
            place: place + bad as u64,
        }),
    }
}

// How many records from `place` on one read takes: it ends where the lane's area does.
fn run_length(layout: &Layout, place: u64, to: u64) -> usize
    requires limits { IsLayout layout.now }
    requires order { place < to }
    ensures longest { result ≡ min (min 256 (to - place))
        (layout.now.capacity - place % layout.now.capacity) }
    ensures some { 0 < result }
    ensures block { result ≤ 256 }
    ensures within { place + result ≤ to }
    ensures in_area { place % layout.now.capacity + result ≤ layout.now.capacity }
{
    let capacity = u64::from(layout.capacity);
    let to_end = capacity - place % capacity;
    to_end.min(to - place).min(RUN_RECORDS as u64) as usize
}

// The records of these bytes, or the first that isn't one of the image.
fn decode_run(layout: &Layout, bytes: &[u8], records: &mut [UndoRecord]) -> Result<(), usize>
    requires { length bytes.now ≡ 16 * length records.old }
    ensures ok { OnOk result (HoldsFirst layout.now bytes.now (length records.new) records.new) }
    ensures bad { IfErr result (BreaksAt layout.now bytes.now records.new) }
{
    for (i, entry) in records.iter_mut().enumerate() {
        let spelled = &bytes[RECORD_BYTES * i..RECORD_BYTES * i + RECORD_BYTES];
        let Some(found) = decode_in(layout, spelled) else {
            return Err(i);
        };
        *entry = found;
    }
    Ok(())
}

// The record that the bytes spell, if they spell one of the image.
fn decode_in(layout: &Layout, bytes: &[u8]) -> Option<UndoRecord>
    requires { length bytes.now ≡ 16 }
    ensures { (r : AnyRecord) → (result ≡ Some r) ↔ SpellsIn layout.now bytes.now r }
{
    let mut spelled = [0; RECORD_BYTES];
    spelled.copy_from_slice(bytes);
    let entry = decode_record(&spelled)?;
    if is_of_image(layout, entry) {
        Some(entry)
    } else {
        None
    }
}

/// Whether the image has the record's object or field.
pub fn is_of_image(layout: &Layout, entry: UndoRecord) -> bool
    ensures { IsTrue result ↔ IsOfImage layout.now entry }
{
    match entry {
        UndoRecord::Acq { object, .. }
        | UndoRecord::Rel { object, .. }
        | UndoRecord::WaitRel { object, .. } => object.0 < layout.objects,
        UndoRecord::Put { field, .. } => field.0 < layout.fields,
    }
}
