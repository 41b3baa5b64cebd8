//! A schema of two objects with a field each, and a disk for it.

use block_disk::MemDisk;
use image::Layout;
use std::alloc::Global;
use thread_work::{FieldId, ObjectId, Schema, SchemaBuilder, SchemaError, lanes_for};

pub const TABLE: ObjectId = ObjectId(0);

pub const TURN: FieldId = FieldId(0);

pub const CHAIR: ObjectId = ObjectId(1);

/// How many records a lane has room for.
pub const CAPACITY: u32 = 4_000;

/// A table with its turn, and a chair with its count.
pub fn schema(alloc: Global) -> Option<Schema> {
    let mut builder = SchemaBuilder::new(alloc);
    if declare(&mut builder).is_err() {
        drop(builder);
        return None;
    }
    match builder.build() {
        Ok(schema) => Some(schema),
        Err((builder, _)) => {
            drop(builder);
            None
        }
    }
}

// Declares both.
fn declare(builder: &mut SchemaBuilder) -> Result<(), SchemaError> {
    let table = builder.object("table")?;
    builder.field(table, "turn", table, 0)?;
    let chair = builder.object("chair")?;
    builder.field(chair, "count", chair, 7)?;
    Ok(())
}

/// A disk for an image of this schema for so many threads.
pub fn disk(alloc: Global, schema: &Schema, threads: u8) -> Option<MemDisk> {
    let layout = Layout::of(schema, lanes_for(threads), CAPACITY)?;
    MemDisk::new(alloc, layout.size()).ok()
}
