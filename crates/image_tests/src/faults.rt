//! Faults of the device and want of memory: where an image is made, where it is read, and at a cell.
ghost use Rattle.std.specs.Prelude.{◌≤◌, ◌<◌, length};
ghost use Rattle.block_disk.specs.Memory.{device_of};
ghost use Rattle.image_parts.specs.Layout.{IsLayout, IsLayoutOf, size_of};

use crate::images::{common_schema, fresh_disk, put, steady};
use crate::reading::study;
use crate::unread::Unread;
use block_disk::{Disk, MemDisk};
use guards::Schema;
use heap_model::FieldId;
use image::{
    ControlError, GuardsError, HeaderError, ImageError, Layout, Slot, get_cell, put_cell,
    read_guards, read_header, write_header,
};
use std::alloc::Global;

// Whether the header can be read of an image, the call of this number in the making of which is a fault. None where it is
// answered otherwise.
fn fail_image(disk: &mut MemDisk, layout: &Layout, schema: &Schema, call: u64) -> Option<bool>
    requires schema { IsLayoutOf schema.now layout.now }
    requires fits { size_of layout.now ≤ length (device_of disk.old).now.bytes }
    requires call { 1 ≤ call }
{
    disk.fail_call(call);
    match write_header(disk, layout, schema) {
        Err(ImageError::Fault) => Some(read_header(disk) == Ok(*layout)),
        _ => None,
    }
}

fn is_header_of_failed_image(alloc: Global, schema: &Schema, call: u64) -> Option<bool>
    requires { 1 ≤ call }
{
    let layout = Layout::of(schema, 2, 4000)?;
    match MemDisk::new(alloc, layout.size()) {
        Ok(mut disk) => {
            let is_header = fail_image(&mut disk, &layout, schema, call);
            drop(disk);
            is_header
        }
        Err(_) => None,
    }
}

// Whether each of the 13 calls fails so, and the header is whole before the last alone.
fn images_fail(alloc: Global) -> Option<bool> {
    match common_schema(alloc) {
        Some(schema) => {
            let fail = images_of_it_fail(alloc, &schema);
            drop(schema);
            Some(fail)
        }
        None => None,
    }
}

fn images_of_it_fail(alloc: Global, schema: &Schema) -> bool {
    for call in 1..14 {
        if is_header_of_failed_image(alloc, schema, call) != Some(call == 13) {
            return false;
        }
    }
    true
}

// Each of the calls that make an image fails in turn. The header is whole before the last.
#[test]
fn a_fault_in_the_making_is_answered_as_one(rt: HostRuntime) {
    assert!(rt; images_fail(rt.alloc()) == Some(true));
}

// What the readers say of a fresh image, where the call of this number is a fault.
fn study_with_fault(alloc: Global, call: u64) -> Option<Result<(Slot, u64), Unread>>
    requires { 1 ≤ call }
{
    let mut disk = fresh_disk(alloc)?;
    disk.fail_call(call);
    let told = study(alloc, &mut disk);
    drop(disk);
    Some(told)
}

fn are_told(alloc: Global) -> bool {
    for call in 1..6 {
        if study_with_fault(alloc, call) != Some(Err(fault_at(call))) {
            return false;
        }
    }
    true
}

// One read is of the header, one of the guard rows, and three are of the control.
fn fault_at(call: u64) -> Unread {
    match call {
        1 => Unread::Header(HeaderError::Fault),
        2 => Unread::Guards(GuardsError::Fault),
        _ => Unread::Control(ControlError::Fault),
    }
}

// Each of the first five calls fails in turn.
#[test]
fn a_fault_in_the_reading_is_answered_as_one(rt: HostRuntime) {
    assert!(rt; are_told(rt.alloc()));
}

// What is answered where a cell's write is a fault, where its read is one, and then.
fn answer_cells(
    disk: &mut MemDisk,
    layout: &Layout,
) -> (Result<(), ImageError>, [Result<u64, ImageError>; 2])
    requires fits { size_of layout.now ≤ length (device_of disk.old).now.bytes }
    requires field { 1 < layout.now.fields }
{
    disk.fail_call(1);
    let put = put_cell(disk, layout, FieldId(1), 7);
    disk.fail_call(1);
    let got = get_cell(disk, layout, FieldId(1));
    (put, [got, get_cell(disk, layout, FieldId(1))])
}

fn cells_answered(alloc: Global) -> Option<(Result<(), ImageError>, [Result<u64, ImageError>; 2])> {
    match steady(alloc) {
        Some((mut disk, layout)) => {
            let answers = if layout.fields < 2 {
                None
            } else {
                Some(answer_cells(&mut disk, &layout))
            };
            drop(disk);
            answers
        }
        None => None,
    }
}

#[test]
fn a_fault_at_a_cell_is_answered_as_one(rt: HostRuntime) {
    let fault = ImageError::Fault;
    assert!(rt; cells_answered(rt.alloc()) == Some((Err(fault), [Err(fault), Ok(20)])));
}

fn count_guards(
    alloc: Global,
    disk: &mut MemDisk,
    layout: &Layout,
) -> Option<Result<usize, GuardsError>>
    requires { IsLayout layout.now }
{
    if disk.size() < layout.size() {
        return None;
    }
    match read_guards(alloc, disk, layout) {
        Ok(rows) => {
            let count = rows.len();
            drop(rows);
            Some(Ok(count))
        }
        Err(error) => Some(Err(error)),
    }
}

// How many guard rows are read of a fresh image, and of it with a row that names no object.
fn guards_read(alloc: Global) -> Option<[Result<usize, GuardsError>; 2]> {
    let (mut disk, layout) = steady(alloc)?;
    let counts = count_twice(alloc, &mut disk, &layout);
    drop(disk);
    counts
}

fn count_twice(
    alloc: Global,
    disk: &mut MemDisk,
    layout: &Layout,
) -> Option<[Result<usize, GuardsError>; 2]>
    requires { IsLayout layout.now }
{
    let good = count_guards(alloc, disk, layout)?;
    put(disk, 2163, &[4])?;
    Some([good, count_guards(alloc, disk, layout)?])
}

// Whether a bad row is told of, whether or not there is memory. Without the memory for a disk there is nothing to tell.
fn tells_of_memory_last(alloc: Global) -> bool {
    match guards_read(alloc) {
        Some(found) => (found[0] == Ok(2) || found[0] == Err(GuardsError::NoMemory))
            && found[1] == Err(GuardsError::BadHeader),
        None => true,
    }
}

// Passes with any one of its allocations refused (`rt try --test --fail-alloc N`), and with none.
#[test]
fn want_of_memory_is_the_last_refusal(rt: HostRuntime) {
    assert!(rt; tells_of_memory_last(rt.alloc()));
}
