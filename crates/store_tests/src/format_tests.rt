//! An image is made of a schema, as documented.

use block_disk::MemDisk;
use guards::{Schema, SchemaBuilder};
use heap_model::ObjectId;
use image::Recovered;
use std::alloc::Global;
use store_image::format;
use store_memory::LoggedSections;

// The size of an image with these fields and 2 lanes of 4,000 records.
const SIZE: u64 = 130_208;

// Four objects, and a field of each of the first two, which guards it.
pub fn declare(builder: &mut SchemaBuilder) -> Option<()> {
    for name in ["o0", "o1", "o2", "o3"] {
        builder.object(name).ok()?;
    }
    builder.field(ObjectId(0), "f0", ObjectId(0), 10).ok()?;
    builder.field(ObjectId(1), "f1", ObjectId(1), 20).ok()?;
    Some(())
}

// A schema of these; none where memory is wanting.
pub fn schema_or_none(alloc: Global) -> Option<Schema> {
    let mut builder = SchemaBuilder::new(alloc);
    if declare(&mut builder).is_none() {
        drop(builder);
        return None;
    }
    builder.build().ok()
}

// An image of the schema with 2 lanes of 4,000 records.
fn made_of(alloc: Global, schema: &Schema) -> Option<Recovered<MemDisk>> {
    match MemDisk::new(alloc, SIZE) {
        Ok(disk) => format(alloc, disk, schema, 2, 4000).ok(),
        Err(_) => None,
    }
}

// Whether its heap has the first values, and how often its device was called.
fn told_of_image(alloc: Global) -> Option<(bool, u64)> {
    let schema = schema_or_none(alloc)?;
    let made = made_of(alloc, &schema);
    drop(schema);
    match made {
        Some(made) => Some(told_of(made)),
        None => None,
    }
}

fn told_of(made: Recovered<MemDisk>) -> (bool, u64) {
    let is_first = made.heap() == [10, 20].as_slice();
    let disk = made.into_disk();
    let stops = disk.stops();
    drop(disk);
    (is_first, stops)
}

// Nine calls, and two for each field.
#[test]
fn an_image_is_made(rt: HostRuntime) {
    assert!(rt; told_of_image(rt.alloc()) == Some((true, 13)));
}

// The stable cut of no sections.
fn stable_of_none(alloc: Global) -> Option<[u64; 32]> {
    let mut sections = LoggedSections::with_capacity(alloc, 2, 2000).ok()?;
    let stable = sections.stable();
    drop(sections);
    Some(stable.cut.counts)
}

#[test]
fn there_is_room_for_sections(rt: HostRuntime) {
    assert!(rt; stable_of_none(rt.alloc()) == Some([0; 32]));
}
