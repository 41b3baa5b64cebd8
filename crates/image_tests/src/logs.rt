//! Logs of a lane, written to a disk and read back.
ghost use Rattle.std.specs.Prelude.{◌≤◌, ◌+◌};

use block_disk::{Disk, DiskError, MemDisk};
use heap_model::{FieldId, Lane, ObjectId, UndoRecord};
use image::{LaneRow, Layout};
use std::alloc::Global;
use undo_log::{LogError, append, read};

// Lane 1's area lies from 34,208 to 66,208: behind 2,160 bytes, 24 for each field, and lane 0's area.
const LAYOUT: Layout = Layout {
    objects: 4,
    fields: 2,
    lanes: 2,
    capacity: 2000,
};

const LANE: Lane = Lane(1);

const STORE: UndoRecord = UndoRecord::Put {
    field: FieldId(1),
    before: 10,
};

// A section with two stores.
const SECTION: [UndoRecord; 4] = [
    UndoRecord::Acq {
        object: ObjectId(3),
        number: 7,
    },
    STORE,
    UndoRecord::Put {
        field: FieldId(0),
        before: 11,
    },
    UndoRecord::Rel {
        object: ObjectId(3),
        number: 7,
    },
];

// The row of a lane whose next place is this.
fn row_at(start: u64, logged: u64) -> LaneRow {
    LaneRow {
        start,
        settled: start,
        logged,
        kept: 0,
    }
}

// The next place is the last but one of the area.
fn near_the_end() -> LaneRow {
    row_at(1000, 1998)
}

fn empty_disk(alloc: Global) -> Option<MemDisk> {
    MemDisk::new(alloc, LAYOUT.size()).ok()
}

// Appends the section; none where the disk is too small, or there is no such row.
fn append_section(disk: &mut MemDisk, row: &LaneRow) -> Option<Result<(), LogError>> {
    if disk.size() < LAYOUT.size() {
        return None;
    }
    if !row.is_within(LAYOUT.capacity) {
        return None;
    }
    Some(append(disk, &LAYOUT, LANE, row, &SECTION))
}

fn append_many(disk: &mut MemDisk, row: &LaneRow) -> Option<Result<(), LogError>> {
    if disk.size() < LAYOUT.size() {
        return None;
    }
    if !row.is_within(LAYOUT.capacity) {
        return None;
    }
    Some(append(disk, &LAYOUT, LANE, row, &[STORE; 600]))
}

// Whether the records of these places are those.
fn reads(
    alloc: Global,
    disk: &mut MemDisk,
    from: u64,
    to: u64,
    records: &[UndoRecord],
) -> Result<bool, LogError>
    requires order { from ≤ to }
    requires few { to ≤ from + 2000 }
{
    if disk.size() < LAYOUT.size() {
        return Ok(false);
    }
    let found = read(alloc, disk, &LAYOUT, LANE, from, to)?;
    let are_so = found.as_slice() == records;
    drop(found);
    Ok(are_so)
}

fn sync(disk: &mut MemDisk) -> Result<(), DiskError> {
    disk.sync()
}

fn write(disk: &mut MemDisk, at: u64, bytes: &[u8]) -> Result<(), DiskError> {
    disk.write_at(at, bytes)
}

// Whether the disk has these bytes there.
fn has(disk: &MemDisk, from: usize, bytes: &[u8; 32]) -> bool {
    let end = from.saturating_add(32);
    disk.bytes().get(from..end) == Some(bytes.as_slice())
}

// The last 32 bytes of the area, and the first.
fn is_spelt(disk: &MemDisk) -> bool {
    let end = [
        1, 0, 0, 0, 0, 0, 0, 3, 0, 0, 0, 0, 0, 0, 0, 7, 4, 0, 0, 0, 0, 0, 0, 1, 0, 0, 0, 0, 0, 0,
        0, 10,
    ];
    let start = [
        4, 0, 0, 0, 0, 0, 0, 0, 0, 0, 0, 0, 0, 0, 0, 11, 2, 0, 0, 0, 0, 0, 0, 3, 0, 0, 0, 0, 0, 0,
        0, 7,
    ];
    has(disk, 66_176, &end) && has(disk, 34_208, &start)
}

// The calls, whether the bytes are as documented, and whether they are read back.
fn logged_over_the_end(alloc: Global) -> Option<(u64, bool, Result<bool, LogError>)> {
    let mut disk = empty_disk(alloc)?;
    let told = log_over_the_end(alloc, &mut disk);
    drop(disk);
    told
}

fn log_over_the_end(
    alloc: Global,
    disk: &mut MemDisk,
) -> Option<(u64, bool, Result<bool, LogError>)> {
    append_section(disk, &near_the_end())?.ok()?;
    let (stops, is_spelt) = (disk.stops(), is_spelt(disk));
    Some((stops, is_spelt, reads(alloc, disk, 1998, 2002, &SECTION)))
}

#[test]
fn a_log_goes_on_at_its_areas_start(rt: HostRuntime) {
    assert!(rt; logged_over_the_end(rt.alloc()) == Some((4, true, Ok(true))));
}

// Whether they are read where the fifth call is a fault, and what the call behind the reading answers.
fn many_read(alloc: Global) -> Option<(Result<bool, LogError>, Result<(), DiskError>)> {
    let mut disk = empty_disk(alloc)?;
    let told = read_many(alloc, &mut disk);
    drop(disk);
    told
}

fn read_many(
    alloc: Global,
    disk: &mut MemDisk,
) -> Option<(Result<bool, LogError>, Result<(), DiskError>)> {
    append_many(disk, &row_at(1700, 1700))?.ok()?;
    disk.fail_call(5);
    let is_read = reads(alloc, disk, 1700, 2300, &[STORE; 600]);
    Some((is_read, sync(disk)))
}

// From place 1,700 up to 2,300 there are four runs: 256 and 44 records up to the area's end, and again 256 and 44.
#[test]
fn many_records_are_read_in_runs(rt: HostRuntime) {
    assert!(rt; many_read(rt.alloc()) == Some((Ok(true), Err(DiskError::Fault))));
}

// What is answered with one place too few, and how many calls there were then; and with just enough.
type Filled = (
    Option<Result<(), LogError>>,
    u64,
    Option<Result<(), LogError>>,
);

fn fill(disk: &mut MemDisk) -> Filled {
    let over = append_section(disk, &row_at(1000, 2997));
    let stops = disk.stops();
    (over, stops, append_section(disk, &row_at(1000, 2996)))
}

fn filled(alloc: Global) -> Option<Filled> {
    let mut disk = empty_disk(alloc)?;
    let filled = fill(&mut disk);
    drop(disk);
    Some(filled)
}

#[test]
fn a_full_area_takes_no_more(rt: HostRuntime) {
    let full = Err(LogError::LogFull { lane: LANE });
    assert!(rt; filled(rt.alloc()) == Some((Some(full), 0, Some(Ok(())))));
}

// What is answered where two places more are read, and where a record names a field that there is not.
fn bad_places(alloc: Global) -> Option<[Result<bool, LogError>; 2]> {
    let mut disk = empty_disk(alloc)?;
    let told = read_bad_places(alloc, &mut disk);
    drop(disk);
    told
}

fn read_bad_places(alloc: Global, disk: &mut MemDisk) -> Option<[Result<bool, LogError>; 2]> {
    append_section(disk, &near_the_end())?.ok()?;
    let zeros = reads(alloc, disk, 1998, 2004, &SECTION);
    write(disk, 34_224, &[4, 0, 0, 0, 0, 0, 0, 2]).ok()?;
    Some([zeros, reads(alloc, disk, 1998, 2004, &SECTION)])
}

// The bytes of place 2,002 are zeros. The image has no field 2, and so no record at place 2,001.
#[test]
fn the_first_bad_place_is_named(rt: HostRuntime) {
    let (first, second) = (
        LogError::BadRecord {
            lane: LANE,
            place: 2002,
        },
        LogError::BadRecord {
            lane: LANE,
            place: 2001,
        },
    );
    assert!(rt; bad_places(rt.alloc()) == Some([Err(first), Err(second)]));
}

// What an appending whose third call fails answers, how many stops there were then, what the next one answers, and a
// reading whose second call fails.
type Failed = (
    Option<Result<(), LogError>>,
    u64,
    Option<Result<(), LogError>>,
    Result<bool, LogError>,
);

fn fail(alloc: Global, disk: &mut MemDisk) -> Failed {
    disk.fail_call(3);
    let first = append_section(disk, &near_the_end());
    let stops = disk.stops();
    let second = append_section(disk, &near_the_end());
    disk.fail_call(2);
    let read = reads(alloc, disk, 1998, 2002, &SECTION);
    (first, stops, second, read)
}

fn failed(alloc: Global) -> Option<Failed> {
    let mut disk = empty_disk(alloc)?;
    let failed = fail(alloc, &mut disk);
    drop(disk);
    Some(failed)
}

#[test]
fn a_fault_in_mid_stream_is_answered(rt: HostRuntime) {
    let fault = LogError::Fault;
    assert!(rt; failed(rt.alloc()) == Some((Some(Err(fault)), 3, Some(Ok(())), Err(fault))));
}

fn append_twice(disk: &mut MemDisk) -> Option<Result<(), LogError>> {
    let first = append_section(disk, &near_the_end());
    if first == Some(Ok(())) {
        return first;
    }
    append_section(disk, &near_the_end())
}

fn read_twice(alloc: Global, disk: &mut MemDisk) -> Result<bool, LogError> {
    let first = reads(alloc, disk, 1998, 2002, &SECTION);
    if first == Err(LogError::NoMemory) {
        return reads(alloc, disk, 1998, 2002, &SECTION);
    }
    first
}

// What the calls answer the first time that memory isn't wanting.
fn grown(alloc: Global) -> Option<(Option<Result<(), LogError>>, Result<bool, LogError>)> {
    match empty_disk_again(alloc) {
        Some(mut disk) => {
            let grown = grow(alloc, &mut disk);
            drop(disk);
            Some(grown)
        }
        None => None,
    }
}

// An empty disk, the second time at the latest.
fn empty_disk_again(alloc: Global) -> Option<MemDisk> {
    match empty_disk(alloc) {
        Some(disk) => Some(disk),
        None => empty_disk(alloc),
    }
}

fn grow(
    alloc: Global,
    disk: &mut MemDisk,
) -> (Option<Result<(), LogError>>, Result<bool, LogError>) {
    let appended = append_twice(disk);
    (appended, read_twice(alloc, disk))
}

// Run with each allocation refused in turn: the call says so, and is made again.
#[test]
fn a_refused_growth_is_answered(rt: HostRuntime) {
    assert!(rt; grown(rt.alloc()) == Some((Some(Ok(())), Ok(true))));
}
