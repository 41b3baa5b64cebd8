//! The image of the common schema as it is made: its bytes, and its size.
ghost use Rattle.std.specs.Prelude.{◌≡◌, ◌≤◌, [], length, IfSome, OnSome};
ghost use Rattle.block_disk.specs.Memory.{device_of};
ghost use Rattle.image.specs.Commit.{IsSteady};
ghost use Rattle.image_parts.specs.Control.{empty_control};
ghost use Rattle.image_parts.specs.Format.{IsFresh};
ghost use Rattle.image_parts.specs.Layout.{IsLayout, IsLayoutOf, size_of};
ghost use Rattle.image_parts.specs.declared.slot.Slot.TheVariants.{A};

use crate::schemas::{built, field, object};
use block_disk::{Disk, MemDisk};
use guards::{Schema, SchemaBuilder};
use heap_model::ObjectId;
use image::{Layout, steady_law, write_header};
use std::alloc::Global;

// Four objects, and a field of each of the first two, which guards it.
pub(crate) fn declare(builder: &mut SchemaBuilder) -> Option<()> {
    declare_objects(builder, &["o0", "o1", "o2", "o3"])?;
    field(builder, ObjectId(0), "f0", ObjectId(0), 10).ok()?;
    field(builder, ObjectId(1), "f1", ObjectId(1), 20).ok()?;
    Some(())
}

// Objects of these names.
fn declare_objects(builder: &mut SchemaBuilder, names: &[&str]) -> Option<()> {
    for name in names {
        object(builder, name).ok()?;
    }
    Some(())
}

pub(crate) fn common_schema(alloc: Global) -> Option<Schema> {
    let mut builder = SchemaBuilder::new(alloc);
    match declare(&mut builder) {
        Some(()) => built(builder),
        None => {
            drop(builder);
            None
        }
    }
}

// The image of the schema with two lanes of 4,000 records, on a disk that ends with it.
pub(crate) fn fresh(alloc: Global, schema: &Schema) -> Option<(MemDisk, Layout)>
    ensures layout { IfSome result (λ made. IsLayoutOf schema.now made.1) }
    ensures size { IfSome result (λ made. size_of made.1 ≤ length (device_of made.0).now.bytes) }
    ensures fresh { IfSome result (λ made. IsFresh schema.now made.1 (device_of made.0).now.bytes) }
    ensures durable { IfSome result (λ made. (device_of made.0).now.pending ≡ []) }
{
    let layout = Layout::of(schema, 2, 4000)?;
    match MemDisk::new(alloc, layout.size()) {
        Ok(mut disk) => match make_image(&mut disk, &layout, schema) {
            Some(()) => Some((disk, layout)),
            None => {
                drop(disk);
                None
            }
        },
        Err(_) => None,
    }
}

// Makes the image on the disk.
fn make_image(disk: &mut MemDisk, layout: &Layout, schema: &Schema) -> Option<()>
    requires schema { IsLayoutOf schema.now layout.now }
    requires fits { size_of layout.now ≤ length (device_of disk.old).now.bytes }
    ensures size { OnSome result (size_of layout.now ≤ length (device_of disk.new).now.bytes) }
    ensures fresh { OnSome result (IsFresh schema.now layout.now (device_of disk.new).now.bytes) }
    ensures durable { OnSome result ((device_of disk.new).now.pending ≡ []) }
{
    let Ok(()) = write_header(disk, layout, schema) else {
        return None;
    };
    if disk.size() < layout.size() {
        return None;
    }
    Some(())
}

// The same, for a test that asks nothing of the schema.
pub(crate) fn steady(alloc: Global) -> Option<(MemDisk, Layout)>
    ensures layout { IfSome result (λ made. IsLayout made.1) }
    ensures size { IfSome result (λ made. size_of made.1 ≤ length (device_of made.0).now.bytes) }
    ensures steady { IfSome result (λ made. IsSteady made.1 (device_of made.0) A (empty_control 1)) }
{
    match common_schema(alloc) {
        Some(schema) => {
            let made = steady_of(alloc, &schema);
            drop(schema);
            made
        }
        None => None,
    }
}

fn steady_of(alloc: Global, schema: &Schema) -> Option<(MemDisk, Layout)>
    ensures layout { IfSome result (λ made. IsLayout made.1) }
    ensures size { IfSome result (λ made. size_of made.1 ≤ length (device_of made.0).now.bytes) }
    ensures steady { IfSome result (λ made. IsSteady made.1 (device_of made.0) A (empty_control 1)) }
{
    steady_law();
    let (disk, layout) = fresh(alloc, schema)?;
    Some((disk, layout))
}

// The same, for a test that asks nothing more of it.
pub(crate) fn fresh_disk(alloc: Global) -> Option<MemDisk> {
    match steady(alloc) {
        Some((disk, _)) => Some(disk),
        None => None,
    }
}

pub(crate) fn put(disk: &mut MemDisk, at: u64, bytes: &[u8]) -> Option<()> {
    disk.write_at(at, bytes).ok()
}

// The size of the schema's image with so many lanes of so many records.
fn size_with(schema: &Schema, lanes: u8, capacity: u32) -> Option<u64> {
    let layout = Layout::of(schema, lanes, capacity)?;
    Some(layout.size())
}

fn sizes_of(schema: &Schema) -> [Option<u64>; 5] {
    [
        size_with(schema, 0, 4000),
        size_with(schema, 33, 4000),
        size_with(schema, 2, 1999),
        size_with(schema, 2, 1_048_577),
        size_with(schema, 2, 4000),
    ]
}

fn sizes(alloc: Global) -> Option<[Option<u64>; 5]> {
    match common_schema(alloc) {
        Some(schema) => {
            let sizes = sizes_of(&schema);
            drop(schema);
            Some(sizes)
        }
        None => None,
    }
}

#[test]
fn layouts_have_limits(rt: HostRuntime) {
    assert!(rt; sizes(rt.alloc()) == Some([None, None, None, None, Some(130_208)]));
}

// The first 32 bytes. The next 32 are zeros.
const HEADER: [u8; 32] = [
    0x4d, 0x4f, 0x4e, 0x49, 0x48, 0x45, 0x41, 0x50, 0xa5, 0x02, 0, 0, 0, 0, 0, 0x04, 0, 0, 0, 0x02,
    0, 0, 0x0f, 0xa0, 0, 0, 0, 0, 0, 0x01, 0xfc, 0xa0,
];

// The second field's guard row.
pub(crate) const ROW: [u8; 16] = [0, 0, 0, 1, 0, 0, 0, 1, 0, 0, 0, 0, 0, 0, 0, 20];

// Whether the disk has these bytes there.
pub(crate) fn has(disk: &MemDisk, at: usize, bytes: &[u8]) -> bool {
    let end = at.saturating_add(bytes.len());
    disk.bytes().get(at..end) == Some(bytes)
}

// Its size and its calls, and whether header and guard row are as documented.
fn fresh_found(alloc: Global) -> Option<(u64, u64, [bool; 3])> {
    match fresh_disk(alloc) {
        Some(disk) => {
            let found = found_on(&disk);
            drop(disk);
            Some(found)
        }
        None => None,
    }
}

fn found_on(disk: &MemDisk) -> (u64, u64, [bool; 3]) {
    let as_documented = [
        has(disk, 0, &HEADER),
        has(disk, 32, &[0; 32]),
        has(disk, 2176, &ROW),
    ];
    (disk.size(), disk.stops(), as_documented)
}

#[test]
fn a_fresh_image_is_as_documented(rt: HostRuntime) {
    assert!(rt; fresh_found(rt.alloc()) == Some((130_208, 13, [true; 3])));
}
