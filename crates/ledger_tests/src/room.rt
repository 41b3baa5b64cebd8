//! Accounts, and a disk for them.

use block_disk::MemDisk;
use image::Layout;
use std::alloc::Global;
use thread_work::{Schema, SchemaBuilder, SchemaError, lanes_for};

/// How many records a lane has room for.
pub const CAPACITY: u32 = 4_000;

/// What the first account has, numbered 0.
pub const FIRST: u64 = 10;

/// What the second account has, numbered 1: 5 more pass 64 bits.
pub const SECOND: u64 = u64::MAX - 4;

/// Two accounts; an object whose field is under the monitor of another one, numbered 2; and one without a field, numbered 3.
pub fn schema(alloc: Global) -> Option<Schema> {
    let mut builder = SchemaBuilder::new(alloc);
    if declare(&mut builder).is_err() {
        drop(builder);
        return None;
    }
    match builder.build() {
        Ok(schema) => Some(schema),
        Err((builder, _)) => {
            drop(builder);
            None
        }
    }
}

// Declares them.
fn declare(builder: &mut SchemaBuilder) -> Result<(), SchemaError> {
    let first = builder.object("first")?;
    builder.field(first, "balance of first", first, FIRST)?;
    let second = builder.object("second")?;
    builder.field(second, "balance of second", second, SECOND)?;
    let third = builder.object("third")?;
    builder.field(third, "balance of third", second, 0)?;
    builder.object("fourth")?;
    Ok(())
}

/// A disk for an image of this schema, for one thread.
pub fn disk(alloc: Global, schema: &Schema) -> Option<MemDisk> {
    let layout = Layout::of(schema, lanes_for(1), CAPACITY)?;
    MemDisk::new(alloc, layout.size()).ok()
}
