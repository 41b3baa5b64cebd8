//! Stores of the common schema, and what their calls answer.
ghost use Rattle.std.specs.Prelude.{◌≤◌};

use crate::format_tests::schema_or_none;
use block_disk::MemDisk;
use durable::{Store, StoreCall, StoreError};
use guards::Schema;
use heap_model::{FieldId, Lane, ObjectId, Record};
use image::Layout;
use std::alloc::Global;
use store_image::format;

pub(crate) fn acq(object: u32, number: u64) -> Record {
    Record::Acq {
        object: ObjectId(object),
        number,
    }
}

pub(crate) fn rel(object: u32, number: u64) -> Record {
    Record::Rel {
        object: ObjectId(object),
        number,
    }
}

pub(crate) fn wait(object: u32, number: u64) -> Record {
    Record::WaitRel {
        object: ObjectId(object),
        number,
    }
}

pub(crate) fn put(field: u32, before: u64, after: u64) -> Record {
    Record::Put {
        field: FieldId(field),
        before,
        after,
    }
}

// The first thread's call, and the second one's.
pub(crate) fn one(record: Record) -> StoreCall {
    StoreCall::Apply(Lane(0), record)
}

pub(crate) fn two(record: Record) -> StoreCall {
    StoreCall::Apply(Lane(1), record)
}

// A store of the common schema, with so many lanes of so many records. Release numbers stay at `last` or below.
fn store_on(
    alloc: Global,
    disk: MemDisk,
    lanes: u8,
    capacity: u32,
    last: u16,
) -> Option<Store<MemDisk>> {
    match schema_or_none(alloc) {
        Some(schema) => {
            let store = adopted(alloc, disk, &schema, lanes, capacity, last);
            drop(schema);
            store
        }
        None => {
            drop(disk);
            None
        }
    }
}

// The same of this schema.
pub(crate) fn adopted(
    alloc: Global,
    disk: MemDisk,
    schema: &Schema,
    lanes: u8,
    capacity: u32,
    last: u16,
) -> Option<Store<MemDisk>> {
    match format(alloc, disk, schema, lanes, capacity) {
        Ok(made) => Store::adopt(alloc, made, u64::from(last)).ok(),
        Err(refused) => {
            drop(refused);
            None
        }
    }
}

// The same on a device as large as an image with two lanes of 4,000 records.
pub(crate) fn fresh_with(
    alloc: Global,
    lanes: u8,
    capacity: u32,
    last: u16,
) -> Option<Store<MemDisk>> {
    match MemDisk::new(alloc, 130_208) {
        Ok(disk) => store_on(alloc, disk, lanes, capacity, last),
        Err(_) => None,
    }
}

pub(crate) fn fresh(alloc: Global, lanes: u8, last: u16) -> Option<Store<MemDisk>> {
    fresh_with(alloc, lanes, 4000, last)
}

// A device of that size, whose call of this number fails.
fn failing_disk(alloc: Global, call: u64) -> Option<MemDisk>
    requires { 1 ≤ call }
{
    let mut disk = MemDisk::new(alloc, 130_208).ok()?;
    disk.fail_call(call);
    Some(disk)
}

// A store on it, with so many lanes of 4,000 records.
pub(crate) fn failing(alloc: Global, call: u64, lanes: u8) -> Option<Store<MemDisk>>
    requires { 1 ≤ call }
{
    match failing_disk(alloc, call) {
        Some(disk) => store_on(alloc, disk, lanes, 4000, 9),
        None => None,
    }
}

// How many sections of the lane are acknowledged, if there is such a lane.
pub(crate) fn kept(store: &Store<MemDisk>, lane: u8) -> Option<u64> {
    if lane < store.layout().lanes {
        Some(store.acknowledged(Lane(lane)))
    } else {
        None
    }
}

// A call, and what it is to answer.
pub(crate) type Told = (StoreCall, Result<(), StoreError>);

// What the call answers.
fn answer_to(store: &mut Store<MemDisk>, call: StoreCall) -> Result<(), StoreError> {
    match store.play(&[call]) {
        Ok(()) => Ok(()),
        Err((_, reason)) => Err(reason),
    }
}

// Makes these calls in turn, up to the first that answers otherwise, and gives that call's number and answer.
pub(crate) fn first_other(
    store: &mut Store<MemDisk>,
    steps: &[Told],
) -> Option<(usize, Result<(), StoreError>)> {
    for (place, step) in steps.iter().enumerate() {
        let (call, wanted) = *step;
        let answer = answer_to(store, call);
        if answer != wanted {
            return Some((place, answer));
        }
    }
    None
}

// Whether the store is closed.
pub(crate) fn is_closed(store: Store<MemDisk>) -> bool {
    let closed = store.close();
    let is_closed = closed.is_ok();
    drop(closed);
    is_closed
}

// A store of one field, inside a section.
pub(crate) const SECTION: [StoreCall; 3] = [
    StoreCall::Apply(
        Lane(0),
        Record::Acq {
            object: ObjectId(0),
            number: 0,
        },
    ),
    StoreCall::Apply(
        Lane(0),
        Record::Put {
            field: FieldId(0),
            before: 10,
            after: 5,
        },
    ),
    StoreCall::Apply(
        Lane(0),
        Record::Rel {
            object: ObjectId(0),
            number: 0,
        },
    ),
];

// Makes these calls of a fresh store of two lanes, and gives its device.
pub(crate) fn played(alloc: Global, calls: &[StoreCall]) -> Option<(MemDisk, Layout)> {
    let mut store = fresh(alloc, 2, 9)?;
    let layout = store.layout();
    let is_played = store.play(calls).is_ok();
    let disk = store.into_disk();
    if is_played {
        Some((disk, layout))
    } else {
        drop(disk);
        None
    }
}
