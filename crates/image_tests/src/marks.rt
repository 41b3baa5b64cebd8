//! The guard row of a transient field, and rows with other bytes.
use crate::images::{ROW, declare, fresh, has, put};
use crate::reading::layout_in;
use crate::schemas::{built, transient};
use crate::unread::{BAD_ROW, Unread};
use block_disk::{Disk, MemDisk};
use guards::{Schema, SchemaBuilder};
use heap_model::ObjectId;
use image::{GuardRow, read_guards};
use std::alloc::Global;

// The same objects and fields, and a transient field of the last object, which the third one guards.
fn marked_schema(alloc: Global) -> Option<Schema> {
    let mut builder = SchemaBuilder::new(alloc);
    match declare_marked(&mut builder) {
        Some(()) => built(builder),
        None => {
            drop(builder);
            None
        }
    }
}

fn declare_marked(builder: &mut SchemaBuilder) -> Option<()> {
    declare(builder)?;
    transient(builder, ObjectId(3), "f2", ObjectId(2), 30).ok()?;
    Some(())
}

fn disk_of(alloc: Global, schema: &Schema) -> Option<MemDisk> {
    match fresh(alloc, schema) {
        Some((disk, _)) => Some(disk),
        None => None,
    }
}

fn marked_disk(alloc: Global) -> Option<MemDisk> {
    match marked_schema(alloc) {
        Some(schema) => {
            let disk = disk_of(alloc, &schema);
            drop(schema);
            disk
        }
        None => None,
    }
}

// The transient field's guard row, and its home cell.
const MARKED: [u8; 16] = [0, 0, 0, 2, 1, 0, 0, 3, 0, 0, 0, 0, 0, 0, 0, 30];

// The image's size, and whether the second row and the third one, and the third cell, are as documented.
fn marked_found(alloc: Global) -> Option<(u64, [bool; 3])> {
    let disk = marked_disk(alloc)?;
    let as_documented = [
        has(&disk, 2176, &ROW),
        has(&disk, 2192, &MARKED),
        has(&disk, 2224, &[0, 0, 0, 0, 0, 0, 0, 30]),
    ];
    let size = disk.size();
    drop(disk);
    Some((size, as_documented))
}

#[test]
fn a_transient_field_has_a_marked_row(rt: HostRuntime) {
    assert!(rt; marked_found(rt.alloc()) == Some((130_232, [true; 3])));
}

fn read_third(alloc: Global, disk: &mut MemDisk) -> Result<Option<GuardRow>, Unread> {
    let layout = layout_in(disk)?;
    match read_guards(alloc, disk, &layout) {
        Ok(rows) => {
            let third = rows.get(2).copied();
            drop(rows);
            Ok(third)
        }
        Err(why) => Err(Unread::Guards(why)),
    }
}

// The transient field's row as it is read, where this byte of the image is altered.
fn third_row(alloc: Global, at: u64, byte: u8) -> Option<Result<Option<GuardRow>, Unread>> {
    match marked_disk(alloc) {
        Some(mut disk) => {
            let row = read_altered(alloc, &mut disk, at, byte);
            drop(disk);
            row
        }
        None => None,
    }
}

fn read_altered(
    alloc: Global,
    disk: &mut MemDisk,
    at: u64,
    byte: u8,
) -> Option<Result<Option<GuardRow>, Unread>> {
    put(disk, at, &[byte])?;
    Some(read_third(alloc, disk))
}

// The row of field 2, with or without the mark.
fn third(transient: bool) -> GuardRow {
    GuardRow {
        guard: ObjectId(2),
        owner: ObjectId(3),
        first: 30,
        transient,
    }
}

// Whether the third row is read so where any one of these bytes of the image is altered, each at its place.
fn are_read(
    alloc: Global,
    alterations: &[(u64, u8)],
    row: Result<Option<GuardRow>, Unread>,
) -> bool {
    for (at, byte) in alterations.iter().copied() {
        if third_row(alloc, at, byte) != Some(row) {
            return false;
        }
    }
    true
}

// The bytes are the row's mark, and the first field's.
#[test]
fn a_mark_is_read(rt: HostRuntime) {
    assert!(rt; are_read(rt.alloc(), &[(2196, 1), (2164, 1)], Ok(Some(third(true)))));
    assert!(rt; are_read(rt.alloc(), &[(2196, 0)], Ok(Some(third(false)))));
}

// Another mark, a byte that has to be zero, and the high byte of the owner.
#[test]
fn rows_with_other_bytes_are_refused(rt: HostRuntime) {
    let alterations = [(2196, 2), (2196, 0xff), (2197, 1), (2165, 1), (2198, 1)];
    assert!(rt; are_read(rt.alloc(), &alterations, Err(BAD_ROW)));
}
