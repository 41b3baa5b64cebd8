//! Stores whose calls are known, and what recovery answers of what a crash leaves of them.
use crate::hand_made_logs::formatted;
use block_disk::{Fill, MemDisk};
use durable::{Store, StoreCall};
use heap_model::{Cut, FieldId, Lane, ObjectId, Record};
use image::Recovered;
use recover::{Dropped, RecoverError, Report, Why, recover};
use std::alloc::Global;

/// What recovery made of an image with two fields.
#[derive(Clone, Copy, Debug, PartialEq, Eq)]
pub struct Outcome {
    /// The sections that it kept.
    pub kept: Cut,
    /// Those that it dropped, of which there are two at most.
    pub dropped: [Option<Dropped>; 2],
    /// How many fields it put back.
    pub undone: u32,
    /// The heap.
    pub heap: [u64; 2],
}

pub(crate) fn acq(object: u32, number: u64) -> Record {
    Record::Acq {
        object: ObjectId(object),
        number,
    }
}

pub(crate) fn rel(object: u32, number: u64) -> Record {
    Record::Rel {
        object: ObjectId(object),
        number,
    }
}

pub(crate) fn wait(object: u32, number: u64) -> Record {
    Record::WaitRel {
        object: ObjectId(object),
        number,
    }
}

pub(crate) fn put(field: u32, before: u64, after: u64) -> Record {
    Record::Put {
        field: FieldId(field),
        before,
        after,
    }
}

/// The first thread's call.
pub(crate) fn one(record: Record) -> StoreCall {
    StoreCall::Apply(Lane(0), record)
}

/// The second thread's call.
pub(crate) fn two(record: Record) -> StoreCall {
    StoreCall::Apply(Lane(1), record)
}

/// So many sections of the two lanes.
pub(crate) fn cut(first: u64, second: u64) -> Cut {
    let mut counts = [0; 32];
    counts[0] = first;
    counts[1] = second;
    Cut { counts }
}

/// So many sections are kept, with this heap, and none is dropped.
pub(crate) fn kept(first: u64, second: u64, heap: [u64; 2]) -> Outcome {
    Outcome {
        kept: cut(first, second),
        dropped: [None, None],
        undone: 0,
        heap,
    }
}

/// A section that is dropped.
pub(crate) fn dropped(lane: u8, section: u64, why: Why) -> Option<Dropped> {
    Some(Dropped {
        lane: Lane(lane),
        section,
        why,
    })
}

/// Since it depends on this one.
pub(crate) fn after(lane: u8, section: u64) -> Why {
    Why::After {
        lane: Lane(lane),
        section,
    }
}

/// A section of the first thread that stores 5, logged, written home and acknowledged.
pub(crate) fn stored() -> [StoreCall; 7] {
    [
        one(acq(0, 0)),
        one(put(0, 10, 5)),
        one(rel(0, 0)),
        StoreCall::Log,
        StoreCall::Home,
        StoreCall::Home,
        StoreCall::Settle,
    ]
}

/// The first thread stores 1 and frees the guard, but not its other monitor; the second one stores 2 in a section.
pub(crate) fn two_stores() -> [StoreCall; 11] {
    [
        one(acq(0, 0)),
        one(acq(1, 0)),
        one(put(0, 10, 1)),
        one(rel(0, 0)),
        two(acq(0, 1)),
        two(put(0, 1, 2)),
        two(rel(0, 1)),
        StoreCall::Log,
        StoreCall::Home,
        StoreCall::Home,
        StoreCall::Settle,
    ]
}

/// The same, and then the first thread ends its section.
pub(crate) fn released() -> [StoreCall; 15] {
    [
        one(acq(0, 0)),
        one(acq(1, 0)),
        one(put(0, 10, 1)),
        one(rel(0, 0)),
        two(acq(0, 1)),
        two(put(0, 1, 2)),
        two(rel(0, 1)),
        StoreCall::Log,
        StoreCall::Home,
        StoreCall::Home,
        StoreCall::Settle,
        one(rel(1, 0)),
        StoreCall::Log,
        StoreCall::Home,
        StoreCall::Settle,
    ]
}

/// A store of the common schema on this disk, with two lanes of 4,000 records.
pub(crate) fn store_on(alloc: Global, disk: MemDisk) -> Option<Store<MemDisk>> {
    let made = formatted(alloc, disk)?;
    match Store::adopt(alloc, made, 9) {
        Ok(store) => Some(store),
        Err(_) => None,
    }
}

/// The same on a disk of its own.
pub(crate) fn new_store(alloc: Global) -> Option<Store<MemDisk>> {
    let disk = MemDisk::new(alloc, 130_208).ok()?;
    store_on(alloc, disk)
}

/// What a crash behind the last of these calls leaves of the store that made them.
pub(crate) fn crashed(alloc: Global, calls: &[StoreCall], fill: Fill) -> Option<MemDisk> {
    let mut store = new_store(alloc)?;
    if store.play(calls).is_err() {
        drop(store);
        return None;
    }
    let disk = store.into_disk();
    let left = disk.crash_image(disk.stops().saturating_add(1), fill);
    drop(disk);
    left.ok()?
}

/// What recovery answers of that, where what wasn't synced is lost.
pub(crate) fn left_by(alloc: Global, calls: &[StoreCall]) -> Option<Result<Outcome, RecoverError>> {
    recovery_of(alloc, crashed(alloc, calls, Fill::Lost)?)
}

/// What recovery of this disk answers.
pub(crate) fn recovery_of(alloc: Global, disk: MemDisk) -> Option<Result<Outcome, RecoverError>> {
    answered(recover(alloc, disk))
}

/// What recovery answered. None where that is no heap of two fields, or more than two sections are dropped.
pub(crate) fn answered(
    answer: Result<(Recovered<MemDisk>, Report), (MemDisk, RecoverError)>,
) -> Option<Result<Outcome, RecoverError>> {
    match answer {
        Ok((recovered, report)) => {
            let outcome = outcome_of(recovered.heap(), &report);
            drop(recovered);
            drop(report);
            Some(Ok(outcome?))
        }
        Err((disk, reason)) => {
            drop(disk);
            Some(Err(reason))
        }
    }
}

/// This heap and this report.
pub(crate) fn outcome_of(heap: &[u64], report: &Report) -> Option<Outcome> {
    let [first, second] = heap else {
        return None;
    };
    let dropped = match report.dropped.as_slice() {
        [] => [None, None],
        [one] => [Some(*one), None],
        [one, two] => [Some(*one), Some(*two)],
        _ => return None,
    };
    Some(Outcome {
        kept: report.kept,
        dropped,
        undone: report.undone,
        heap: [*first, *second],
    })
}
