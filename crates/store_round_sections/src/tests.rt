//! Worked sections. Of five fields with the guards o2, o0, o2, o1 and o0, three change. Beyond the cut o1 is taken first at 8, o2 at 3, and
//! o0 never.
use crate::{needed, push_sections, sort_by_guard};
use heap_model::{FieldId, ObjectId, UndoRecord};
use std::alloc::{AllocError, Global};
use store_round_image::HomeValue;

fn change(field: u32, value: u64) -> HomeValue {
    HomeValue {
        field: FieldId(field),
        value,
    }
}

fn put(field: u32, before: u64) -> UndoRecord {
    UndoRecord::Put {
        field: FieldId(field),
        before,
    }
}

fn acquire(object: u32, number: u64) -> UndoRecord {
    UndoRecord::Acq {
        object: ObjectId(object),
        number,
    }
}

fn release(object: u32, number: u64) -> UndoRecord {
    UndoRecord::Rel {
        object: ObjectId(object),
        number,
    }
}

fn made(alloc: Global) -> Result<Vec<UndoRecord>, AllocError> {
    let guards = [
        ObjectId(2),
        ObjectId(0),
        ObjectId(2),
        ObjectId(1),
        ObjectId(0),
    ];
    let first = [0, 9, 4];
    let mut changed = [change(2, 72), change(4, 74), change(0, 70)];
    sort_by_guard(&mut changed, &guards);
    let mut records = Vec::with_capacity(alloc, needed(&changed, &guards))?;
    push_sections(&mut records, &changed, &guards, &first);
    Ok(records)
}

// The section of o2 takes it at 2, just before 3, and that of o0 at 0. Fields of one guard come in any order.
fn are_as_worked(alloc: Global) -> Option<bool> {
    let records = made(alloc).ok()?;
    let one = [
        acquire(2, 2),
        put(0, 70),
        put(2, 72),
        release(2, 2),
        acquire(0, 0),
        put(4, 74),
        release(0, 0),
    ];
    let other = [
        acquire(2, 2),
        put(2, 72),
        put(0, 70),
        release(2, 2),
        acquire(0, 0),
        put(4, 74),
        release(0, 0),
    ];
    Some(records.as_slice() == one.as_slice() || records.as_slice() == other.as_slice())
}

#[test]
fn sections_stand_just_before_the_first_live_record(rt: HostRuntime) {
    assert!(rt; are_as_worked(rt.alloc()) == Some(true));
}
