//! Controls by their documented bytes: as they are read, and as they are committed.
ghost use Rattle.block_disk.specs.Memory.{device_of};
ghost use Rattle.image.specs.Commit.{IsSteady};
ghost use Rattle.image_parts.specs.Control.{empty_control};
ghost use Rattle.image_parts.specs.Layout.{IsLayout};
ghost use Rattle.image_parts.specs.declared.slot.Slot.TheVariants.{A};

use crate::images::{fresh_disk, has, put, steady};
use crate::reading::study_with;
use crate::unread::{BAD_CONTROL, Unread};
use block_disk::{Disk, MemDisk};
use image::{Control, LaneRow, Layout, Slot, choose_control, commit_control, steady_law};
use std::alloc::Global;

// The rows of a control with records in two lanes.
fn two_rows() -> [LaneRow; 32] {
    let mut rows = [LaneRow::EMPTY; 32];
    rows[0] = LaneRow {
        start: 1,
        settled: 2,
        logged: 5,
        kept: 1,
    };
    rows[1] = LaneRow {
        start: 0,
        settled: 0,
        logged: 258,
        kept: 0,
    };
    rows
}

// The control's body with this sequence, worked out by hand.
fn documented_body(sequence: u8) -> [u8; 1040] {
    let mut body = [0; 1040];
    body[7] = sequence;
    body[11] = 2;
    body[23] = 1;
    body[31] = 2;
    body[39] = 5;
    body[47] = 1;
    body[70] = 1;
    body[71] = 2;
    body
}

// A fresh image with another body in its first slot, the gate of which is open.
fn disk_with(alloc: Global, body: &[u8]) -> Option<MemDisk> {
    let mut disk = fresh_disk(alloc)?;
    if put(&mut disk, 72, body).is_none() {
        drop(disk);
        return None;
    }
    Some(disk)
}

// What the readers say where this byte of the documented body is altered.
fn study_body(alloc: Global, at: usize, byte: u8) -> Option<Result<(Slot, u64), Unread>> {
    let mut body = documented_body(3);
    *body.get_mut(at)? = byte;
    let mut disk = fresh_disk(alloc)?;
    let told = study_with(alloc, &mut disk, 72, &body);
    drop(disk);
    told
}

// Whether any one of these bytes altered, each at its place, makes it a bad one.
fn are_bad(alloc: Global, alterations: &[(usize, u8)]) -> bool {
    for (at, byte) in alterations.iter().copied() {
        if study_body(alloc, at, byte) != Some(Err(BAD_CONTROL)) {
            return false;
        }
    }
    true
}

#[test]
fn altered_bodies_are_refused(rt: HostRuntime) {
    let alterations = [
        (7, 0),
        (11, 0),
        (11, 3),
        (12, 1),
        (15, 1),
        (23, 3),
        (47, 3),
        (38, 16),
        (71 + 32, 1),
    ];
    assert!(rt; are_bad(rt.alloc(), &alterations));
}

// The control that is read of one disk, and the slot into which one with its rows is committed on the other.
fn read_and_commit(
    documented: &mut MemDisk,
    disk: &mut MemDisk,
    layout: &Layout,
) -> Option<(Control, Slot)>
    requires limits { IsLayout layout.now }
    requires steady { IsSteady layout.now (device_of disk.old) A (empty_control 1) }
{
    if documented.size() < 2160 {
        return None;
    }
    let Ok((Slot::A, control)) = choose_control(documented, layout) else {
        return None;
    };
    let Ok(slot) = commit_control(disk, layout, Slot::A, 1, &control.rows) else {
        return None;
    };
    Some((control, slot))
}

// The control of two rows is read of its documented body. Committed over a fresh image, its rows are spelt so again.
fn read_and_committed(alloc: Global) -> Option<(Control, Slot, bool)> {
    match disk_with(alloc, &documented_body(3)) {
        Some(mut documented) => {
            let committed = read_and_committed_of(alloc, &mut documented);
            drop(documented);
            committed
        }
        None => None,
    }
}

fn read_and_committed_of(alloc: Global, documented: &mut MemDisk) -> Option<(Control, Slot, bool)> {
    match steady(alloc) {
        Some((mut disk, layout)) => {
            let spelt = read_and_spell(documented, &mut disk, &layout);
            drop(disk);
            spelt
        }
        None => None,
    }
}

fn read_and_spell(
    documented: &mut MemDisk,
    disk: &mut MemDisk,
    layout: &Layout,
) -> Option<(Control, Slot, bool)>
    requires limits { IsLayout layout.now }
    requires steady { IsSteady layout.now (device_of disk.old) A (empty_control 1) }
{
    let (control, slot) = read_and_commit(documented, disk, layout)?;
    Some((control, slot, has(disk, 1120, &documented_body(2))))
}

#[test]
fn a_control_has_the_documented_bytes(rt: HostRuntime) {
    let control = Control {
        sequence: 3,
        version: 2,
        rows: two_rows(),
    };
    assert!(rt; read_and_committed(rt.alloc()) == Some((control, Slot::B, true)));
}

// What the readers say where the gates of both slots are open, with this sequence in slot B.
fn study_both_open(alloc: Global, sequence: u8) -> Option<Result<(Slot, u64), Unread>> {
    let mut disk = fresh_disk(alloc)?;
    let told = study_opened(alloc, &mut disk, &documented_body(sequence));
    drop(disk);
    told
}

// What they say where slot B's gate is opened before this body.
fn study_opened(
    alloc: Global,
    disk: &mut MemDisk,
    body: &[u8],
) -> Option<Result<(Slot, u64), Unread>> {
    put(disk, 1112, &[0xa5])?;
    study_with(alloc, disk, 1120, body)
}

// Whether they say so.
fn is_shown(alloc: Global, sequence: u8, wanted: Result<(Slot, u64), Unread>) -> bool {
    study_both_open(alloc, sequence) == Some(wanted)
}

fn are_all_shown(alloc: Global) -> bool {
    is_shown(alloc, 0, Ok((Slot::A, 1)))
        && is_shown(alloc, 1, Err(BAD_CONTROL))
        && is_shown(alloc, 2, Ok((Slot::B, 2)))
}

// The greater sequence counts, and two equal ones are refused.
#[test]
fn the_greater_sequence_counts(rt: HostRuntime) {
    assert!(rt; are_all_shown(rt.alloc()));
}

// The control that is read of a fresh image whose control has version 1, and the slot into which one with its rows is
// committed.
fn commit_over_old(disk: &mut MemDisk, layout: &Layout) -> Option<(Control, Slot)>
    requires { IsLayout layout.now }
{
    let Ok(()) = disk.write_at(83, &[1]) else {
        return None;
    };
    let Ok(()) = disk.sync() else {
        return None;
    };
    if disk.size() < 2160 {
        return None;
    }
    let Ok((chosen, control)) = choose_control(disk, layout) else {
        return None;
    };
    steady_law();
    let Ok(slot) = commit_control(disk, layout, chosen, control.sequence, &control.rows) else {
        return None;
    };
    Some((control, slot))
}

// The same, and whether the new control's first bytes are its sequence and version 2.
fn committed_over_old(alloc: Global) -> Option<(Control, Slot, bool)> {
    match steady(alloc) {
        Some((mut disk, layout)) => {
            let spelt = spell_over_old(&mut disk, &layout);
            drop(disk);
            spelt
        }
        None => None,
    }
}

fn spell_over_old(disk: &mut MemDisk, layout: &Layout) -> Option<(Control, Slot, bool)>
    requires { IsLayout layout.now }
{
    let (control, slot) = commit_over_old(disk, layout)?;
    let is_spelt = has(disk, 1120, &[0, 0, 0, 0, 0, 0, 0, 2, 0, 0, 0, 2]);
    Some((control, slot, is_spelt))
}

#[test]
fn a_commit_over_version_1_has_version_2(rt: HostRuntime) {
    let old = Control {
        sequence: 1,
        version: 1,
        rows: [LaneRow::EMPTY; 32],
    };
    assert!(rt; committed_over_old(rt.alloc()) == Some((old, Slot::B, true)));
}
