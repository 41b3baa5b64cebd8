//! The worked round of `law_rounds`, with other helper's records too: the first thread's section has stored 5 and is kept; the
//! second has taken the guard from it and stored 7, in a section that is open; the third lane is the helper's.
use block_disk::{Disk, MemDisk};
use durable::Store;
use guards::{Schema, SchemaBuilder};
use heap_model::{FieldId, Lane, ObjectId, UndoRecord};
use image::{LaneRow, Recovered};
use recover::{Dropped, RecoverError, Report, Why, recover};
use std::alloc::Global;
use undo_log::encode_record;

// Three lanes of 2,000 records and two fields: where the lanes' rows lie in the first slot, the first home cell, and the areas.
pub(crate) const SIZE: u64 = 98_208;

const ROWS_AT: [u64; 3] = [88, 120, 152];

pub(crate) const CELL_AT: u64 = 2192;

const AREAS_AT: [u64; 3] = [2208, 34_208, 66_208];

// Two objects, and a field of each, which guards it; none where memory is wanting.
fn declare(builder: &mut SchemaBuilder) -> Option<()> {
    builder.object("o0").ok()?;
    builder.object("o1").ok()?;
    builder.field(ObjectId(0), "f0", ObjectId(0), 10).ok()?;
    builder.field(ObjectId(1), "f1", ObjectId(1), 20).ok()?;
    Some(())
}

pub(crate) fn schema_or_none(alloc: Global) -> Option<Schema> {
    let mut builder = SchemaBuilder::new(alloc);
    if declare(&mut builder).is_none() {
        drop(builder);
        return None;
    }
    builder.build().ok()
}

fn fresh(alloc: Global) -> Option<MemDisk> {
    let disk = MemDisk::new(alloc, SIZE).ok()?;
    let Some(schema) = schema_or_none(alloc) else {
        drop(disk);
        return None;
    };
    let made = Store::format(alloc, disk, &schema, 3, 2000).ok();
    drop(schema);
    Some(made?.into_disk())
}

fn put(disk: &mut MemDisk, at: u64, bytes: &[u8]) -> Option<()> {
    disk.write_at(at, bytes).ok()
}

fn put_row(disk: &mut MemDisk, at: u64, row: LaneRow) -> Option<()> {
    let mut bytes = [0; 32];
    bytes[..8].copy_from_slice(&row.start.to_be_bytes());
    bytes[8..16].copy_from_slice(&row.settled.to_be_bytes());
    bytes[16..24].copy_from_slice(&row.logged.to_be_bytes());
    bytes[24..].copy_from_slice(&row.kept.to_be_bytes());
    put(disk, at, &bytes)
}

fn put_records(disk: &mut MemDisk, from: u64, records: &[UndoRecord]) -> Option<()> {
    let mut at = from;
    for entry in records {
        put(disk, at, &encode_record(entry))?;
        at = at.wrapping_add(16);
    }
    Some(())
}

// A row with so many records before the first live one, which is the first that isn't acknowledged.
fn row(start: u64, logged: u64, kept: u64) -> LaneRow {
    LaneRow {
        start,
        settled: start,
        logged,
        kept,
    }
}

fn acq(number: u64) -> UndoRecord {
    UndoRecord::Acq {
        object: ObjectId(0),
        number,
    }
}

fn rel(number: u64) -> UndoRecord {
    UndoRecord::Rel {
        object: ObjectId(0),
        number,
    }
}

fn store(before: u64) -> UndoRecord {
    UndoRecord::Put {
        field: FieldId(0),
        before,
    }
}

// The image with these records of the helper's and this value in the first field's cell.
fn put_round(disk: &mut MemDisk, helper: &[UndoRecord], cell: u64) -> Option<()> {
    let open = [acq(1), store(5)];
    put_row(disk, ROWS_AT[0], row(3, 3, 1))?;
    put_row(disk, ROWS_AT[1], row(0, 2, 0))?;
    put_records(disk, AREAS_AT[1], &open)?;
    put_row(disk, ROWS_AT[2], row(0, helper.len() as u64, 0))?;
    put_records(disk, AREAS_AT[2], helper)?;
    put(disk, CELL_AT, &cell.to_be_bytes())
}

// What recovery gives: the heap, how many fields it puts back, and how many sections of the first lane it keeps.
type Given = ([u64; 2], u32, u64);

fn given(recovered: &Recovered<MemDisk>, report: &Report) -> Option<Given> {
    let dropped = [
        Dropped {
            lane: Lane(1),
            section: 1,
            why: Why::Unfinished,
        },
        Dropped {
            lane: Lane(2),
            section: 1,
            why: Why::Unsettled,
        },
    ];
    if report.dropped.as_slice() != dropped.as_slice() {
        return None;
    }
    let heap = recovered.heap().as_array::<2>()?;
    Some((*heap, report.undone, report.kept.counts[0]))
}

// What recovery answers of that image. None where other sections are dropped than the second thread's and the helper's.
fn recovered(
    alloc: Global,
    helper: &[UndoRecord],
    cell: u64,
) -> Option<Result<Given, RecoverError>> {
    let mut disk = fresh(alloc)?;
    if put_round(&mut disk, helper, cell).is_none() {
        drop(disk);
        return None;
    }
    match recover(alloc, disk) {
        Ok((made, report)) => {
            let told = given(&made, &report);
            drop(made);
            drop(report);
            Some(Ok(told?))
        }
        Err((disk, reason)) => {
            drop(disk);
            Some(Err(reason))
        }
    }
}

// Whatever the cell holds, the field has what the kept section stored.
#[test]
fn the_kept_value_comes_from_the_helpers_record(rt: HostRuntime) {
    let helper = [acq(0), store(5), rel(0)];
    for cell in [10, 5, 7, u64::MAX] {
        assert!(rt; recovered(rt.alloc(), &helper, cell) == Some(Ok(([5, 20], 1, 1))));
    }
}

// At the number of the live acquire the helper's section has no place: the second thread still holds the guard.
#[test]
fn a_number_that_a_live_record_has_is_refused(rt: HostRuntime) {
    let helper = [acq(1), store(5), rel(1)];
    let why = RecoverError::IllegalLog {
        lane: Lane(2),
        place: 0,
    };
    assert!(rt; recovered(rt.alloc(), &helper, 5) == Some(Err(why)));
}

// With the old value before its store, the helper's section would lose what was kept.
#[test]
fn the_old_value_in_the_helpers_record_loses_the_kept_one(rt: HostRuntime) {
    let helper = [acq(0), store(10), rel(0)];
    assert!(rt; recovered(rt.alloc(), &helper, 5) == Some(Ok(([10, 20], 1, 1))));
}
