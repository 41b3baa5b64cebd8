//! The heap that an image stands for, from the replay of its live records.
ghost use Rattle.std.specs.Prelude.{◌≡◌, ◌+◌, ◌-◌, ◌<◌, ◌≤◌, ◌^◌, ℕ, All, nat_lt, IfErr, IfOk, None, length, slice_index, slice_index_or, slice_set};
ghost use Rattle.block_disk.specs.Device.{SameMoments};
ghost use Rattle.block_disk.specs.Since.{HasCauseSince};
ghost use Rattle.image_parts.specs.Cells.{HasHome};
ghost use Rattle.image_parts.specs.Layout.{size_of};
ghost use Rattle.recover_heap.specs.Heap.{AreOldValues, AreUndone, AreValuesOf, HaveOldValues, IsValueOf, KeepsFirst, RefusesHeap, TakesAllBack};
ghost use Rattle.recover_heap.specs.Logs.{AreReplayOf, lanes_of};
ghost use Rattle.recover_logs.specs.Tables.{IsLow};
ghost use Rattle.recover_heap.specs.declared.error.RecoverError.TheVariants.{Fault, NoMemory};

use crate::error::RecoverError;
use block_disk::Disk;
use heap_model::{FieldId, Lane, UndoRecord};
use image_parts::{GuardRow, LaneRow, Layout, get_cell};
use recover_logs::Step;
use std::alloc::Global;

/// What a replayed image stands for.
#[derive(Drop)]
pub struct OldHeap {
    /// The fields' values, by field.
    pub heap: Vec<u64>,
    /// The fields with a live store that isn't settled, in rising order.
    pub undone: Vec<FieldId>,
}

/// The heap that the image stands for: each field takes the value before its first live store that isn't settled, or has
/// the one in its home cell, or if it is transient its first one. The steps are the replay of the lanes' live records,
/// which are those of an image with these guard rows and these rows of its control.
///
/// `NoMemory` comes where there is no room for the values or the fields, and `Fault` where a read fails; the device is
/// left as it was. The time is linear in the steps and the fields; each persistent field without an old value costs one
/// read.
pub fn old_heap<D: Disk>(
    alloc: Global,
    disk: &mut D,
    layout: &Layout,
    guards: &[GuardRow],
    rows: &[LaneRow; 32],
    logs: &[Vec<UndoRecord>],
    steps: &[Step],
) -> Result<OldHeap, RecoverError>
    requires fits { size_of layout.now ≤ length (D.device disk.old).now.bytes }
    requires guards { length guards.now ≡ layout.now.fields }
    requires replayed { AreReplayOf guards.now logs.now steps.now }
    requires low { All IsLow steps.now }
    ensures size { IfOk result (λ old. length old.heap.items ≡ layout.now.fields) }
    ensures takes { IfOk result (λ old. TakesAllBack layout.now guards.now rows.now
        (lanes_of logs.now) (D.device disk.old).now.bytes old.heap.items) }
    ensures undone { IfOk result
        (λ old. AreUndone layout.now guards.now rows.now (lanes_of logs.now) old.undone.items) }
    ensures no_other { IfErr result RefusesHeap }
    ensures same { SameMoments (D.device disk.old) (D.device disk.new) }
    ensures cause { HasCauseSince (D.device disk.old) (D.device disk.new) Fault result }
{
    let before = old_values(alloc, layout.fields, rows, steps)?;
    let undone = fields_with(alloc, &before)?;
    let heap = values(alloc, disk, layout, guards, &before)?;
    Ok(OldHeap { heap, undone })
}

// By field: the value before its first store that isn't settled, if it has one.
fn old_values(
    alloc: Global,
    fields: u32,
    rows: &[LaneRow; 32],
    steps: &[Step],
) -> Result<Vec<Option<u64>>, RecoverError>
    requires low { All IsLow steps.now }
    ensures size { IfOk result (λ before. length before.items ≡ fields) }
    ensures each { IfOk result (λ before. AreOldValues fields rows.now steps.now before.items) }
    ensures only_memory { IfErr result (λ e. e ≡ NoMemory) }
{
    let mut before = no_values(alloc, fields)?;
    let mut places = [0; 32];
    for step in steps {
        let row = rows[usize::from(step.lane.0)];
        let is_settled = count_next(&mut places, row, step.lane);
        keep_first(&mut before, step.entry, is_settled);
    }
    Ok(before)
}

// No value, for each of so many fields.
fn no_values(alloc: Global, fields: u32) -> Result<Vec<Option<u64>>, RecoverError>
    ensures size { IfOk result (λ before. length before.items ≡ fields) }
    ensures none { IfOk result (λ before. (f : ℕ) → slice_index_or before.items f None ≡ None) }
    ensures only_memory { IfErr result (λ e. e ≡ NoMemory) }
{
    match vec![in alloc; None; fields as usize] {
        Ok(before) => Ok(before),
        Err(_) => Err(RecoverError::NoMemory),
    }
}

// Counts the lane's next record, and tells whether it is settled.
fn count_next(places: &mut [usize; 32], row: LaneRow, lane: Lane) -> bool
    requires lane { lane.0 < 32 }
    requires fits { slice_index places.old lane.0 + 1 < 2 ^ 64 }
    ensures counted { places.new ≡ slice_set places.old lane.0 (slice_index places.old lane.0 + 1) }
    ensures settled { result ≡ nat_lt (slice_index places.old lane.0) (row.settled - row.start) }
{
    let place = places[usize::from(lane.0)];
    places[usize::from(lane.0)] = place + 1;
    (place as u64) < row.settled.saturating_sub(row.start)
}

// Keeps the value before the store, if it isn't settled and no earlier one is kept for its field.
fn keep_first(values: &mut [Option<u64>], entry: UndoRecord, is_settled: bool)
    ensures size { length values.new ≡ length values.old }
    ensures each { KeepsFirst values.old entry is_settled values.new }
{
    if let UndoRecord::Put { field, before } = entry {
        let at = field.0 as usize;
        if !is_settled && at < values.len() && values[at].is_none() {
            values[at] = Some(before);
        }
    }
}

// The fields with an old value, in rising order.
fn fields_with(alloc: Global, before: &[Option<u64>]) -> Result<Vec<FieldId>, RecoverError>
    requires { length before.now < 2 ^ 32 }
    ensures ok { IfOk result (λ fields. HaveOldValues before.now fields.items) }
    ensures only_memory { IfErr result (λ e. e ≡ NoMemory) }
{
    let mut fields = Vec::new(alloc);
    for field in 0..before.len() as u32 {
        if before[field as usize].is_some() {
            let Ok(()) = fields.push(FieldId(field)) else {
                return Err(RecoverError::NoMemory);
            };
        }
    }
    Ok(fields)
}

// The fields' values: the old ones, and where there is none those that they have at home.
fn values<D: Disk>(
    alloc: Global,
    disk: &mut D,
    layout: &Layout,
    guards: &[GuardRow],
    before: &[Option<u64>],
) -> Result<Vec<u64>, RecoverError>
    requires fits { size_of layout.now ≤ length (D.device disk.old).now.bytes }
    requires guards { length guards.now ≡ layout.now.fields }
    requires fields { length before.now ≡ layout.now.fields }
    ensures size { IfOk result (λ heap. length heap.items ≡ layout.now.fields) }
    ensures each { IfOk result (λ heap. AreValuesOf layout.now guards.now before.now
        (D.device disk.old).now.bytes heap.items) }
    ensures no_other { IfErr result RefusesHeap }
    ensures same { SameMoments (D.device disk.old) (D.device disk.new) }
    ensures cause { HasCauseSince (D.device disk.old) (D.device disk.new) Fault result }
{
    let Ok(mut heap) = Vec::with_capacity(alloc, before.len()) else {
        return Err(RecoverError::NoMemory);
    };
    for field in 0..layout.fields {
        let row = guards[field as usize];
        let value = value_of(disk, layout, row, FieldId(field), before[field as usize])?;
        heap.push_reserved(value);
    }
    Ok(heap)
}

// The field's value: the old one, or where there is none that which it has at home.
fn value_of<D: Disk>(
    disk: &mut D,
    layout: &Layout,
    row: GuardRow,
    field: FieldId,
    old: Option<u64>,
) -> Result<u64, RecoverError>
    requires fits { size_of layout.now ≤ length (D.device disk.old).now.bytes }
    requires field { field.0 < layout.now.fields }
    ensures ok { IfOk result (IsValueOf layout.now row field.0 old (D.device disk.old).now.bytes) }
    ensures only_fault { IfErr result (λ e. e ≡ Fault) }
    ensures same { SameMoments (D.device disk.old) (D.device disk.new) }
    ensures cause { HasCauseSince (D.device disk.old) (D.device disk.new) Fault result }
{
    if let Some(old) = old {
        return Ok(old);
    }
    home_of(disk, layout, row, field)
}

// What the field of this row has at home: the value in its cell, or if it is transient always its first one.
fn home_of<D: Disk>(
    disk: &mut D,
    layout: &Layout,
    row: GuardRow,
    field: FieldId,
) -> Result<u64, RecoverError>
    requires fits { size_of layout.now ≤ length (D.device disk.old).now.bytes }
    requires field { field.0 < layout.now.fields }
    ensures ok { IfOk result (HasHome layout.now row field.0 (D.device disk.old).now.bytes) }
    ensures only_fault { IfErr result (λ e. e ≡ Fault) }
    ensures same { SameMoments (D.device disk.old) (D.device disk.new) }
    ensures cause { HasCauseSince (D.device disk.old) (D.device disk.new) Fault result }
{
    if row.transient {
        return Ok(row.first);
    }
    match get_cell(disk, layout, field) {
        Ok(value) => Ok(value),
        Err(_) => Err(RecoverError::Fault),
    }
}
