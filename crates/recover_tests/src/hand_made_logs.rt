//! Images with hand-made logs: what refuses them, and where. The lanes and places follow from the rules of
//! docs/FORMAT.md, "Which image is refused".
mod dropping;
mod recovering;

use block_disk::{Disk, MemDisk};
use durable::Store;
use guards::{Schema, SchemaBuilder};
use heap_model::{FieldId, Lane, ObjectId, UndoRecord};
use image::{LaneRow, Recovered};
use recover::{RecoverError, study};
use std::alloc::Global;
use undo_log::encode_record;

// In the image of the common schema: the two lanes' rows in the first slot, and their areas.
const ROWS_AT: [u64; 2] = [88, 120];

const AREAS_AT: [u64; 2] = [2208, 66_208];

// Four objects, and a field of each of the first two, which guards it; none where memory is wanting.
fn declare(builder: &mut SchemaBuilder) -> Option<()> {
    for name in ["o0", "o1", "o2", "o3"] {
        builder.object(name).ok()?;
    }
    builder.field(ObjectId(0), "f0", ObjectId(0), 10).ok()?;
    builder.field(ObjectId(1), "f1", ObjectId(1), 20).ok()?;
    Some(())
}

fn schema_or_none(alloc: Global) -> Option<Schema> {
    let mut builder = SchemaBuilder::new(alloc);
    if declare(&mut builder).is_none() {
        drop(builder);
        return None;
    }
    builder.build().ok()
}

// The image of the schema on this disk, with two lanes of 4,000 records.
pub(crate) fn formatted(alloc: Global, disk: MemDisk) -> Option<Recovered<MemDisk>> {
    formatted_with(alloc, disk, 2, 4000)
}

// The same with so many lanes of so many records.
pub(crate) fn formatted_with(
    alloc: Global,
    disk: MemDisk,
    lanes: u8,
    capacity: u32,
) -> Option<Recovered<MemDisk>> {
    let Some(schema) = schema_or_none(alloc) else {
        drop(disk);
        return None;
    };
    let made = Store::format(alloc, disk, &schema, lanes, capacity).ok();
    drop(schema);
    made
}

// The same on a disk of its own.
fn fresh(alloc: Global) -> Option<MemDisk> {
    let disk = MemDisk::new(alloc, 130_208).ok()?;
    let made = formatted(alloc, disk)?;
    Some(made.into_disk())
}

fn put(disk: &mut MemDisk, at: u64, bytes: &[u8]) -> Option<()> {
    disk.write_at(at, bytes).ok()
}

// Puts a lane's row there.
fn put_row(disk: &mut MemDisk, at: u64, row: LaneRow) -> Option<()> {
    let mut bytes = [0; 32];
    bytes[..8].copy_from_slice(&row.start.to_be_bytes());
    bytes[8..16].copy_from_slice(&row.settled.to_be_bytes());
    bytes[16..24].copy_from_slice(&row.logged.to_be_bytes());
    bytes[24..].copy_from_slice(&row.kept.to_be_bytes());
    put(disk, at, &bytes)
}

// Puts records there, one behind the other.
fn put_records(disk: &mut MemDisk, from: u64, records: &[UndoRecord]) -> Option<()> {
    let mut at = from;
    for entry in records {
        put(disk, at, &encode_record(entry))?;
        at = at.wrapping_add(16);
    }
    Some(())
}

fn row(settled: u64, logged: u64, kept: u64) -> LaneRow {
    LaneRow {
        start: 0,
        settled,
        logged,
        kept,
    }
}

fn acq(object: u32, number: u64) -> UndoRecord {
    UndoRecord::Acq {
        object: ObjectId(object),
        number,
    }
}

fn rel(object: u32, number: u64) -> UndoRecord {
    UndoRecord::Rel {
        object: ObjectId(object),
        number,
    }
}

fn wait(object: u32, number: u64) -> UndoRecord {
    UndoRecord::WaitRel {
        object: ObjectId(object),
        number,
    }
}

fn store(field: u32) -> UndoRecord {
    UndoRecord::Put {
        field: FieldId(field),
        before: 10,
    }
}

// Puts these logs of the two lanes into the image.
fn put_logs(
    disk: &mut MemDisk,
    rows: [LaneRow; 2],
    first: &[UndoRecord],
    second: &[UndoRecord],
) -> Option<()> {
    put_row(disk, ROWS_AT[0], rows[0])?;
    put_records(disk, AREAS_AT[0], first)?;
    put_row(disk, ROWS_AT[1], rows[1])?;
    put_records(disk, AREAS_AT[1], second)
}

// The image with these logs of its two lanes.
fn image_with(
    alloc: Global,
    rows: [LaneRow; 2],
    first: &[UndoRecord],
    second: &[UndoRecord],
) -> Option<MemDisk> {
    let mut disk = fresh(alloc)?;
    if put_logs(&mut disk, rows, first, second).is_none() {
        drop(disk);
        return None;
    }
    Some(disk)
}

// Two lanes' logs, and what refuses an image with them, if something does.
#[derive(Clone, Copy)]
struct Case<'a> {
    rows: [LaneRow; 2],
    first: &'a [UndoRecord],
    second: &'a [UndoRecord],
    why: Option<RecoverError>,
}

fn told<'a>(
    rows: [LaneRow; 2],
    first: &'a [UndoRecord],
    second: &'a [UndoRecord],
    why: Option<RecoverError>,
) -> Case<'a> {
    Case {
        rows,
        first,
        second,
        why,
    }
}

fn is_answered_so(alloc: Global, case: Case<'_>) -> bool {
    match image_with(alloc, case.rows, case.first, case.second) {
        Some(mut disk) => {
            let why = refused_by(alloc, &mut disk);
            drop(disk);
            why == case.why
        }
        None => false,
    }
}

// Which of these images is answered otherwise, if one is.
fn other_answer(alloc: Global, cases: &[Case<'_>]) -> Option<usize> {
    for (at, case) in cases.iter().enumerate() {
        if !is_answered_so(alloc, *case) {
            return Some(at);
        }
    }
    None
}

fn refused_by(alloc: Global, disk: &mut MemDisk) -> Option<RecoverError> {
    match study(alloc, disk) {
        Ok(found) => {
            drop(found);
            None
        }
        Err(error) => Some(error),
    }
}

fn illegal(lane: u8, place: u64) -> Option<RecoverError> {
    Some(RecoverError::IllegalLog {
        lane: Lane(lane),
        place,
    })
}

// What a study finds of an image with these logs of its two lanes: the image's size, how many fields it has, the rows and
// the records.
fn found_in(
    alloc: Global,
    rows: [LaneRow; 2],
    first: &[UndoRecord],
    second: &[UndoRecord],
) -> Option<[bool; 4]> {
    let mut disk = image_with(alloc, rows, first, second)?;
    let Ok(found) = study(alloc, &mut disk) else {
        drop(disk);
        return None;
    };
    drop(disk);
    let told = match found.records.as_slice() {
        [one, two] => Some([
            found.layout.size() == 130_208,
            found.guards.len() == 2,
            &found.control.rows[..2] == rows.as_slice(),
            one.as_slice() == first && two.as_slice() == second,
        ]),
        _ => None,
    };
    drop(found);
    told
}

// The second lane is settled right after a wait's release that ended its section.
#[test]
fn legal_logs_are_read(rt: HostRuntime) {
    let first = [acq(0, 5), store(0), rel(0, 5), acq(1, 0)];
    let second = [acq(0, 6), wait(0, 6), acq(0, 7), rel(0, 7)];
    let rows = [row(3, 4, 1), row(2, 4, 1)];
    assert!(rt; found_in(rt.alloc(), rows, &first, &second) == Some([true; 4]));
}

#[test]
fn a_stuck_replay_names_the_least_lane_with_records_left(rt: HostRuntime) {
    let none = row(0, 0, 0);
    let later = LaneRow {
        start: 4000,
        settled: 4000,
        logged: 4004,
        kept: 7,
    };
    let skips = [acq(0, 0), rel(0, 0), acq(0, 2), rel(0, 2)];
    let waits = [acq(0, 0), wait(0, 0), acq(1, 0)];
    let takes = [acq(0, 0)];
    let frees = [rel(0, 0)];
    let late = [acq(0, 1)];
    let unguarded = [acq(0, 0), store(1)];
    let cases = [
        // A section whose number isn't the next one.
        told([row(0, 4, 0), none], &skips, &[], illegal(0, 2)),
        // The same where the lane begins at place 4,000, which lies where place 0 did.
        told([later, none], &skips, &[], illegal(0, 4002)),
        // A wait that goes on with another object.
        told([row(0, 3, 0), none], &waits, &[], illegal(0, 2)),
        // A release by a lane that doesn't hold the object.
        told([row(0, 1, 0), row(0, 1, 0)], &takes, &frees, illegal(1, 0)),
        // A store without the guard, behind which the other lane waits for a number that never comes.
        told(
            [row(0, 1, 0), row(0, 2, 0)],
            &late,
            &unguarded,
            illegal(0, 0),
        ),
        told([none, row(0, 2, 0)], &[], &unguarded, illegal(1, 1)),
    ];
    assert!(rt; other_answer(rt.alloc(), &cases) == None);
}

#[test]
fn acknowledged_sections_are_whole_and_depend_on_such(rt: HostRuntime) {
    let none = row(0, 0, 0);
    let one = [acq(0, 0), store(0), rel(0, 0)];
    let stuck = [rel(1, 0)];
    let two = [acq(0, 0), rel(0, 0), acq(0, 1), rel(0, 1)];
    let freed = [acq(0, 0), rel(0, 0)];
    let took = [acq(1, 0), rel(1, 0), acq(0, 1), rel(0, 1)];
    let cases = [
        // Settled inside a section.
        told([row(1, 3, 0), none], &one, &[], illegal(0, 1)),
        // A replay that is stuck comes first, in whatever lane.
        told([row(1, 3, 0), row(0, 1, 0)], &one, &stuck, illegal(1, 0)),
        // Two sections, of which one is kept; and more kept than ended since `start`.
        told([row(4, 4, 1), none], &two, &[], illegal(0, 4)),
        told([row(4, 4, 3), none], &two, &[], None),
        // The second lane's section is settled, and took what the first lane's freed, which isn't.
        told([row(0, 2, 0), row(4, 4, 2)], &freed, &took, illegal(1, 2)),
        told([row(0, 2, 0), row(2, 4, 1)], &freed, &took, None),
    ];
    assert!(rt; other_answer(rt.alloc(), &cases) == None);
}

// One thing more is wrong each time, from the last test to the first: what refuses the image in turn.
fn refused_in_turn(alloc: Global, disk: &mut MemDisk) -> Option<[Option<RecoverError>; 7]> {
    let whole = refused_by(alloc, disk);
    put(disk, AREAS_AT[0], &[9])?;
    let record = refused_by(alloc, disk);
    put_row(disk, ROWS_AT[1], row(0, 0, 1))?;
    let control = refused_by(alloc, disk);
    put(disk, 64, &[0])?;
    let none = refused_by(alloc, disk);
    put(disk, 2163, &[4])?;
    let header = refused_by(alloc, disk);
    disk.fail_call(2);
    let fault = refused_by(alloc, disk);
    put(disk, 8, &[0])?;
    let unformatted = refused_by(alloc, disk);
    Some([whole, record, control, none, header, fault, unformatted])
}

fn worse_and_worse(alloc: Global) -> Option<[Option<RecoverError>; 7]> {
    let log = [acq(0, 0), rel(0, 0)];
    let mut disk = image_with(alloc, [row(0, 2, 0), row(0, 0, 0)], &log, &[])?;
    let told = refused_in_turn(alloc, &mut disk);
    drop(disk);
    told
}

#[test]
fn the_first_thing_that_is_wrong_is_told(rt: HostRuntime) {
    let (lane, place) = (Lane(0), 0);
    let wanted = [
        None,
        Some(RecoverError::BadRecord { lane, place }),
        Some(RecoverError::BadControl),
        Some(RecoverError::NoControl),
        Some(RecoverError::BadHeader),
        Some(RecoverError::Fault),
        Some(RecoverError::NotFormatted),
    ];
    assert!(rt; worse_and_worse(rt.alloc()) == Some(wanted));
}
