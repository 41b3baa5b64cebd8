//! What the readers say of an image: with other bytes it is refused.
ghost use Rattle.std.specs.Prelude.{◌≤◌, length, IfOk};
ghost use Rattle.block_disk.specs.Memory.{device_of};
ghost use Rattle.image_parts.specs.Header.{HasHeader};
ghost use Rattle.image_parts.specs.Layout.{size_of};

use crate::images::{fresh_disk, put};
use crate::unread::{BAD_CONTROL, BAD_HEADER, BAD_ROW, Unread};
use block_disk::{Disk, MemDisk};
use image::{ControlError, HeaderError, Layout, Slot, choose_control, read_guards, read_header};
use std::alloc::Global;

// The layout that the header tells.
pub(crate) fn layout_in(disk: &mut MemDisk) -> Result<Layout, Unread>
    ensures layout { IfOk result (HasHeader (device_of disk.new).now.bytes) }
    ensures fits { IfOk result (λ l. size_of l ≤ length (device_of disk.new).now.bytes) }
{
    match read_header(disk) {
        Ok(layout) => Ok(layout),
        Err(why) => Err(Unread::Header(why)),
    }
}

// What the readers say of the image, one after the other.
pub(crate) fn study(alloc: Global, disk: &mut MemDisk) -> Result<(Slot, u64), Unread> {
    let layout = layout_in(disk)?;
    match read_guards(alloc, disk, &layout) {
        Ok(rows) => drop(rows),
        Err(why) => return Err(Unread::Guards(why)),
    }
    match choose_control(disk, &layout) {
        Ok((slot, control)) => Ok((slot, control.sequence)),
        Err(why) => Err(Unread::Control(why)),
    }
}

// What they say with these bytes there.
pub(crate) fn study_with(
    alloc: Global,
    disk: &mut MemDisk,
    at: u64,
    bytes: &[u8],
) -> Option<Result<(Slot, u64), Unread>> {
    put(disk, at, bytes)?;
    Some(study(alloc, disk))
}

// What the readers say of a fresh image with this byte altered.
fn study_altered(alloc: Global, at: u64, byte: u8) -> Option<Result<(Slot, u64), Unread>> {
    match fresh_disk(alloc) {
        Some(mut disk) => {
            let told = study_with(alloc, &mut disk, at, &[byte]);
            drop(disk);
            told
        }
        None => None,
    }
}

// Whether the image with any one of these bytes altered, each at its place, is refused so.
fn are_refused(alloc: Global, alterations: &[(u64, u8)], refusal: Unread) -> bool {
    for (at, byte) in alterations.iter().copied() {
        if study_altered(alloc, at, byte) != Some(Err(refusal)) {
            return false;
        }
    }
    true
}

#[test]
fn another_name_is_no_image(rt: HostRuntime) {
    let alterations = [(0, 0x4e), (7, 0x51), (8, 0), (8, 0xff)];
    let refusal = Unread::Header(HeaderError::NotFormatted);
    assert!(rt; are_refused(rt.alloc(), &alterations, refusal));
}

#[test]
fn altered_headers_are_refused(rt: HostRuntime) {
    let alterations = [
        (9, 0),
        (9, 33),
        (10, 1),
        (15, 0),
        (14, 0x10),
        (19, 0),
        (22, 0x07),
        (31, 0xa1),
        (32, 1),
        (63, 1),
    ];
    assert!(rt; are_refused(rt.alloc(), &alterations, BAD_HEADER));
}

#[test]
fn rows_that_name_no_object_are_refused(rt: HostRuntime) {
    assert!(rt; are_refused(rt.alloc(), &[(2163, 4), (2183, 4)], BAD_ROW));
}

#[test]
fn a_closed_gate_shows_no_control(rt: HostRuntime) {
    let refusal = Unread::Control(ControlError::NoControl);
    assert!(rt; are_refused(rt.alloc(), &[(64, 0), (64, 0xa4)], refusal));
}

// A control of version 1 is one too: that recovery doesn't take it is no matter of the reader.
#[test]
fn a_control_of_version_1_is_read(rt: HostRuntime) {
    assert!(rt; study_altered(rt.alloc(), 83, 1) == Some(Ok((Slot::A, 1))));
}

#[test]
fn altered_controls_are_refused(rt: HostRuntime) {
    let alterations = [
        (79, 0),
        (83, 0),
        (83, 3),
        (84, 1),
        (95, 1),
        (119, 1),
        (110, 0x10),
        (175, 1),
        (1111, 1),
    ];
    assert!(rt; are_refused(rt.alloc(), &alterations, BAD_CONTROL));
}

// A fresh image without its last byte.
fn short_disk(alloc: Global) -> Option<MemDisk> {
    match fresh_disk(alloc) {
        Some(disk) => {
            let short = shortened(alloc, &disk);
            drop(disk);
            short
        }
        None => None,
    }
}

fn shortened(alloc: Global, disk: &MemDisk) -> Option<MemDisk> {
    MemDisk::from_bytes(alloc, disk.bytes().get(..130_207)?).ok()
}

// What is said of it where it has a bad guard row too.
fn told_of_short(alloc: Global) -> Option<Result<Layout, HeaderError>> {
    match short_disk(alloc) {
        Some(mut short) => {
            let told = told_of_bad_row(&mut short);
            drop(short);
            told
        }
        None => None,
    }
}

fn told_of_bad_row(disk: &mut MemDisk) -> Option<Result<Layout, HeaderError>> {
    put(disk, 2163, &[9])?;
    Some(read_header(disk))
}

// What is said of a device without a whole header.
fn told_of_none(alloc: Global) -> Option<Result<Layout, HeaderError>> {
    match MemDisk::new(alloc, 63) {
        Ok(mut none) => {
            let told = read_header(&mut none);
            drop(none);
            Some(told)
        }
        Err(_) => None,
    }
}

#[test]
fn a_small_device_is_told_of_before_its_guard_rows(rt: HostRuntime) {
    assert!(rt; told_of_short(rt.alloc()) == Some(Err(HeaderError::TooSmall)));
    assert!(rt; told_of_none(rt.alloc()) == Some(Err(HeaderError::NotFormatted)));
}
