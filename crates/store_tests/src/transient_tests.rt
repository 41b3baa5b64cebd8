//! A store whose schema has a transient field.

use crate::format_tests::declare;
use crate::stores::{Told, acq, adopted, first_other, is_closed, one, put, rel};
use block_disk::MemDisk;
use durable::{Store, StoreCall, StoreError};
use guards::{Schema, SchemaBuilder};
use heap_model::{FieldId, ObjectId};
use std::alloc::Global;

// The common declarations, and a transient field more, guarded by the first object.
fn declare_transient(builder: &mut SchemaBuilder) -> Option<()> {
    declare(builder)?;
    builder.transient(ObjectId(0), "f2", ObjectId(0), 30).ok()?;
    Some(())
}

fn schema_or_none(alloc: Global) -> Option<Schema> {
    let mut builder = SchemaBuilder::new(alloc);
    if declare_transient(&mut builder).is_none() {
        drop(builder);
        return None;
    }
    builder.build().ok()
}

// A store of it, on a device as large as its image with 2 lanes of 4,000 records.
fn fresh(alloc: Global) -> Option<Store<MemDisk>> {
    let schema = schema_or_none(alloc)?;
    let store = match MemDisk::new(alloc, 130_232) {
        Ok(disk) => adopted(alloc, disk, &schema, 2, 4000, 9),
        Err(_) => None,
    };
    drop(schema);
    store
}

// The values of its fields.
fn values(store: &Store<MemDisk>) -> Option<[u64; 3]> {
    if store.layout().fields < 3 {
        return None;
    }
    Some([
        store.heap_value(FieldId(0)),
        store.heap_value(FieldId(1)),
        store.heap_value(FieldId(2)),
    ])
}

// Its steps: a section that stores to a field, and would to the transient one.
fn steps() -> [Told; 8] {
    let refused = (one(put(2, 30, 31)), Err(StoreError::BadId));
    [
        refused,
        (one(acq(0, 0)), Ok(())),
        refused,
        (one(put(0, 10, 5)), Ok(())),
        (one(rel(0, 0)), Ok(())),
        (StoreCall::Log, Ok(())),
        (StoreCall::Home, Ok(())),
        (StoreCall::Settle, Ok(())),
    ]
}

// Whether each step answers as it is to, and the values then.
type Answered = (bool, Option<[u64; 3]>);

fn answered(store: &mut Store<MemDisk>) -> Answered {
    let are_so = first_other(store, &steps()).is_none();
    (are_so, values(store))
}

// The same of a fresh store, and whether it is closed then.
fn told_of_steps(alloc: Global) -> Option<(Answered, bool)> {
    let mut store = fresh(alloc)?;
    let found = answered(&mut store);
    Some((found, is_closed(store)))
}

// A store of it is no record, whoever holds its guard; it keeps its first value.
#[test]
fn a_transient_field_keeps_its_first_value(rt: HostRuntime) {
    let wanted = ((true, Some([5, 20, 30])), true);
    assert!(rt; told_of_steps(rt.alloc()) == Some(wanted));
}
