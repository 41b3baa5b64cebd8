//! Cut-off and altered images of a store, and what recovery answers of them. Each byte's place follows from docs/FORMAT.md.
ghost use Rattle.std.specs.Prelude.{◌<◌};

use super::runs::{
    Outcome, acq, crashed, cut, dropped, kept, one, outcome_of, recovery_of, rel, stored, two,
};
use block_disk::{Fill, MemDisk};
use durable::StoreCall;
use heap_model::Lane;
use recover::{RecoverError, Why, recover, study};
use std::alloc::Global;
use std::ops::Range;

// A byte of an image by its place, and its new value.
type Change = (usize, u8);

const WORN: [Change; 8] = [
    (72, 255),
    (73, 255),
    (74, 255),
    (75, 255),
    (76, 255),
    (77, 255),
    (78, 255),
    (79, 255),
];

// Changes the bytes at these places.
fn change(bytes: &mut [u8], changes: &[Change]) -> Option<()> {
    for (at, value) in changes {
        *bytes.get_mut(*at)? = *value;
    }
    Some(())
}

/// The image with the bytes at these places changed.
pub(super) fn changed(alloc: Global, image: &MemDisk, changes: &[Change]) -> Option<MemDisk> {
    let mut bytes = image.bytes().to_vec(alloc).ok()?;
    if change(&mut bytes, changes).is_none() {
        drop(bytes);
        return None;
    }
    let disk = MemDisk::from_bytes(alloc, &bytes);
    drop(bytes);
    disk.ok()
}

// What recovery answers of the image with these changes.
fn left_of(
    alloc: Global,
    image: &MemDisk,
    changes: &[Change],
) -> Option<Result<Outcome, RecoverError>> {
    recovery_of(alloc, changed(alloc, image, changes)?)
}

// The first of these changes that isn't refused for its reason, if one isn't.
fn other_refusal(
    alloc: Global,
    image: &MemDisk,
    altered: &[(&[Change], RecoverError)],
) -> Option<usize> {
    for (row, (changes, why)) in altered.iter().enumerate() {
        if left_of(alloc, image, changes) != Some(Err(*why)) {
            return Some(row);
        }
    }
    None
}

// Whether what these calls leave is refused, with each of these changes, for its reason.
fn are_refused(alloc: Global, calls: &[StoreCall], altered: &[(&[Change], RecoverError)]) -> bool {
    match crashed(alloc, calls, Fill::Lost) {
        Some(image) => {
            let other = other_refusal(alloc, &image, altered);
            drop(image);
            other.is_none()
        }
        None => false,
    }
}

// What recovery answers of the first bytes of the image, so many.
fn left_of_part(
    alloc: Global,
    image: &MemDisk,
    length: usize,
) -> Option<Result<Outcome, RecoverError>> {
    let disk = MemDisk::from_bytes(alloc, image.bytes().get(..length)?).ok()?;
    recovery_of(alloc, disk)
}

// The first of these lengths of which a beginning of the image isn't refused for this reason, if there is one.
fn other_length(
    alloc: Global,
    image: &MemDisk,
    lengths: Range<usize>,
    step: usize,
    why: RecoverError,
) -> Option<usize>
    requires { 0 < step }
{
    for length in lengths.step_by(step) {
        if left_of_part(alloc, image, length) != Some(Err(why)) {
            return Some(length);
        }
    }
    None
}

fn bad_record(lane: u8, place: u64) -> RecoverError {
    RecoverError::BadRecord {
        lane: Lane(lane),
        place,
    }
}

fn illegal(lane: u8, place: u64) -> RecoverError {
    RecoverError::IllegalLog {
        lane: Lane(lane),
        place,
    }
}

// Whether each beginning that is shorter than a header's first part, and every 1,833rd of the others, the shortest and the
// longest among them, is refused.
fn parts_are_refused(alloc: Global) -> Option<[bool; 2]> {
    let image = crashed(alloc, &stored(), Fill::Lost)?;
    let shorter = other_length(alloc, &image, 0..64, 1, RecoverError::NotFormatted);
    let longer = other_length(alloc, &image, 64..130_208, 1_833, RecoverError::TooSmall);
    drop(image);
    Some([shorter.is_none(), longer.is_none()])
}

#[test]
fn a_part_of_an_image_is_refused(rt: HostRuntime) {
    assert!(rt; parts_are_refused(rt.alloc()) == Some([true; 2]));
}

#[test]
fn an_altered_image_is_refused(rt: HostRuntime) {
    let altered: [(&[Change], RecoverError); 18] = [
        (&[(8, 0)], RecoverError::NotFormatted),
        (&[(9, 0)], RecoverError::BadHeader),
        (&[(9, 33)], RecoverError::BadHeader),
        (&[(31, 161)], RecoverError::BadHeader),
        (&[(2163, 4)], RecoverError::BadHeader),
        // A mark that is none, and a byte that isn't zero behind one.
        (&[(2164, 2)], RecoverError::BadHeader),
        (&[(2165, 1)], RecoverError::BadHeader),
        (&[(64, 0), (1112, 0)], RecoverError::NoControl),
        (&[(79, 2)], RecoverError::BadControl),
        (&[(83, 3)], RecoverError::BadControl),
        (&[(83, 1)], RecoverError::OldVersion),
        (&[(103, 4)], RecoverError::BadControl),
        (&[(119, 4)], RecoverError::BadControl),
        // A field that is transient, in version 1.
        (&[(83, 1), (2180, 1)], RecoverError::BadControl),
        (&[(2208, 9)], bad_record(0, 0)),
        (&[(103, 1)], illegal(0, 1)),
        (&[(119, 0)], illegal(0, 3)),
        // A store to a field that is transient.
        (&[(2164, 1)], illegal(0, 1)),
    ];
    assert!(rt; are_refused(rt.alloc(), &stored(), &altered));
}

// What recovery gives where the second field's cell says 99, and where the field is transient too.
fn left_with_another_value(alloc: Global) -> Option<[Option<Result<Outcome, RecoverError>>; 2]> {
    let image = crashed(alloc, &stored(), Fill::Lost)?;
    let persistent = left_of(alloc, &image, &[(2207, 99)]);
    let transient = left_of(alloc, &image, &[(2207, 99), (2180, 1)]);
    drop(image);
    Some([persistent, transient])
}

// A transient field has its row's first value, whatever its cell says.
#[test]
fn a_transient_field_begins_anew(rt: HostRuntime) {
    let wanted = [kept(1, 0, [5, 99]), kept(1, 0, [5, 20])];
    let told = left_with_another_value(rt.alloc());
    assert!(rt; told == Some([Some(Ok(wanted[0])), Some(Ok(wanted[1]))]));
}

// What a section leaves, with a control of version 1.
fn old_image(alloc: Global) -> Option<MemDisk> {
    let image = crashed(alloc, &stored(), Fill::Lost)?;
    let old = changed(alloc, &image, &[(83, 1)]);
    drop(image);
    old
}

// Whether recovery of this image is refused, and leaves these bytes.
fn is_refused_with(alloc: Global, old: MemDisk, bytes: &[u8]) -> Option<[bool; 2]> {
    let (disk, why) = recover(alloc, old).err()?;
    let told = [why == RecoverError::OldVersion, disk.bytes() == bytes];
    drop(disk);
    Some(told)
}

// Whether recovery of an image of version 1 is refused, and leaves its bytes as they were.
fn is_left_alone(alloc: Global) -> Option<[bool; 2]> {
    let old = old_image(alloc)?;
    let Some(again) = changed(alloc, &old, &[]) else {
        drop(old);
        return None;
    };
    let told = is_refused_with(alloc, old, again.bytes());
    drop(again);
    told
}

#[test]
fn an_image_of_version_1_is_left_alone(rt: HostRuntime) {
    assert!(rt; is_left_alone(rt.alloc()) == Some([true; 2]));
}

// What recovery answers where the gate of the last control is closed.
fn left_by_the_other(alloc: Global) -> Option<Result<Outcome, RecoverError>> {
    let image = crashed(alloc, &stored(), Fill::Lost)?;
    let left = left_of(alloc, &image, &[(64, 0)]);
    drop(image);
    left
}

// The control before counts, which has the section as logged.
#[test]
fn the_other_control_counts_where_a_gate_is_closed(rt: HostRuntime) {
    let wanted = Outcome {
        kept: cut(0, 0),
        dropped: [dropped(0, 1, Why::Unsettled), None],
        undone: 1,
        heap: [10, 20],
    };
    assert!(rt; left_by_the_other(rt.alloc()) == Some(Ok(wanted)));
}

fn studied(alloc: Global, disk: &mut MemDisk) -> Option<Outcome> {
    let found = study(alloc, disk).ok()?;
    let outcome = outcome_of(&found.heap, &found.report);
    drop(found);
    outcome
}

// What is studied of an image with a worn control, and what recovery answers of it.
fn told_of_worn(alloc: Global) -> Option<(Outcome, Option<Result<Outcome, RecoverError>>)> {
    let image = crashed(alloc, &stored(), Fill::Lost)?;
    let worn = changed(alloc, &image, &WORN);
    drop(image);
    let mut disk = worn?;
    let Some(outcome) = studied(alloc, &mut disk) else {
        drop(disk);
        return None;
    };
    Some((outcome, recovery_of(alloc, disk)))
}

#[test]
fn a_worn_control_is_studied_but_not_recovered(rt: HostRuntime) {
    let wanted = (kept(1, 0, [5, 20]), Some(Err(RecoverError::Worn)));
    assert!(rt; told_of_worn(rt.alloc()) == Some(wanted));
}

// The second lane's section is acknowledged, and took what the first lane's freed, which isn't.
#[test]
fn an_acknowledged_section_that_depends_on_none_such_is_refused(rt: HostRuntime) {
    let calls = [
        one(acq(0, 0)),
        one(rel(0, 0)),
        two(acq(0, 1)),
        two(rel(0, 1)),
        StoreCall::Log,
        StoreCall::Settle,
    ];
    let altered: [(&[Change], RecoverError); 1] = [(&[(103, 0), (119, 0)], illegal(1, 0))];
    assert!(rt; are_refused(rt.alloc(), &calls, &altered));
}

// The change is that of the last byte of the third record.
#[test]
fn a_number_that_is_not_the_next_one_is_refused(rt: HostRuntime) {
    let calls = [
        one(acq(0, 0)),
        one(rel(0, 0)),
        one(acq(0, 1)),
        one(rel(0, 1)),
        StoreCall::Log,
    ];
    let altered: [(&[Change], RecoverError); 1] = [(&[(2255, 2)], illegal(0, 2))];
    assert!(rt; are_refused(rt.alloc(), &calls, &altered));
}
