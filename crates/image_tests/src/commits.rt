//! A commit at each of its stops: crashes and faults.
ghost use Rattle.std.specs.Prelude.{◌≤◌, ◌+◌, OnOk};
ghost use Rattle.block_disk.specs.Memory.{device_of};
ghost use Rattle.image.specs.Commit.{IsSteady};
ghost use Rattle.image_parts.specs.Control.{empty_control};
ghost use Rattle.image_parts.specs.Layout.{IsLayout};
ghost use Rattle.image_parts.specs.Slots.{other};
ghost use Rattle.image_parts.specs.declared.slot.Slot.TheVariants.{A};

use crate::images::steady;
use crate::reading::study;
use crate::unread::Unread;
use block_disk::{Disk, Fill, MemDisk};
use image::{ImageError, LaneRow, Layout, Slot, commit_control, empty_rows_law};
use std::alloc::Global;

// Commits a control with empty logs over one with this sequence.
fn commit(
    disk: &mut MemDisk,
    layout: &Layout,
    chosen: Slot,
    sequence: u64,
) -> Result<Slot, ImageError>
    requires limits { IsLayout layout.now }
    requires steady { IsSteady layout.now (device_of disk.old) chosen (empty_control sequence) }
    ensures steady { OnOk result (IsSteady layout.now (device_of disk.new) (other chosen) (empty_control (sequence + 1))) }
{
    empty_rows_law();
    commit_control(disk, layout, chosen, sequence, &[LaneRow::EMPTY; 32])
}

// The same, where the call of this number fails.
fn failed_commit(
    disk: &mut MemDisk,
    layout: &Layout,
    chosen: Slot,
    sequence: u64,
    call: u64,
) -> Result<Slot, ImageError>
    requires limits { IsLayout layout.now }
    requires steady { IsSteady layout.now (device_of disk.old) chosen (empty_control sequence) }
    requires call { 1 ≤ call }
{
    disk.fail_call(call);
    commit(disk, layout, chosen, sequence)
}

// Two commits over a fresh image, and its stops after each.
fn commit_twice(disk: &mut MemDisk, layout: &Layout) -> Option<[u64; 2]>
    requires limits { IsLayout layout.now }
    requires steady { IsSteady layout.now (device_of disk.old) A (empty_control 1) }
{
    let Ok(Slot::B) = commit(disk, layout, Slot::A, 1) else {
        return None;
    };
    let first = disk.stops();
    let Ok(Slot::A) = commit(disk, layout, Slot::B, 2) else {
        return None;
    };
    Some([first, disk.stops()])
}

// What a crash at this stop shows.
pub(crate) fn shown(
    alloc: Global,
    disk: &MemDisk,
    stop: u64,
    fill: Fill,
) -> Option<Result<(Slot, u64), Unread>> {
    match disk.crash_image(stop, fill) {
        Ok(Some(mut image)) => {
            let told = study(alloc, &mut image);
            drop(image);
            Some(told)
        }
        _ => None,
    }
}

// Whether a crash at each stop from 14 to 24 shows the first control before the stop `second`, then the second control, and
// the third from the stop `third`.
fn are_shown(alloc: Global, disk: &MemDisk, fill: Fill, second: u64, third: u64) -> bool {
    for stop in 14..25 {
        let expected = if stop < second {
            (Slot::A, 1)
        } else if stop < third {
            (Slot::B, 2)
        } else {
            (Slot::A, 3)
        };
        if shown(alloc, disk, stop, fill) != Some(Ok(expected)) {
            return false;
        }
    }
    true
}

// The stops of two commits, and whether their crashes show what they are to, for each fill. Four calls go into slot B, whose
// gate is closed, and six into slot A, whose gate is open.
fn crashed_commits(alloc: Global) -> Option<([u64; 2], [bool; 5])> {
    match steady(alloc) {
        Some((mut disk, layout)) => {
            let crashed = crash_commits(alloc, &mut disk, &layout);
            drop(disk);
            crashed
        }
        None => None,
    }
}

fn crash_commits(
    alloc: Global,
    disk: &mut MemDisk,
    layout: &Layout,
) -> Option<([u64; 2], [bool; 5])>
    requires limits { IsLayout layout.now }
    requires steady { IsSteady layout.now (device_of disk.old) A (empty_control 1) }
{
    let stops = commit_twice(disk, layout)?;
    Some((stops, shown_by_fills(alloc, disk)))
}

fn shown_by_fills(alloc: Global, disk: &MemDisk) -> [bool; 5] {
    [
        are_shown(alloc, disk, Fill::Lost, 18, 24),
        are_shown(alloc, disk, Fill::Kept, 16, 22),
        are_shown(alloc, disk, Fill::Byte(0), 18, 24),
        are_shown(alloc, disk, Fill::Byte(0xff), 18, 24),
        are_shown(alloc, disk, Fill::Byte(0xa5), 16, 22),
    ]
}

// The image is made by 13 writes and syncs.
#[test]
fn a_crash_in_a_commit_leaves_the_old_control_or_the_new_one(rt: HostRuntime) {
    assert!(rt; crashed_commits(rt.alloc()) == Some(([17, 23], [true; 5])));
}

// Two commits over a fresh image, the call of this number in the second of which is a fault.
fn fail_second_commit(disk: &mut MemDisk, layout: &Layout, call: u64) -> Option<()>
    requires limits { IsLayout layout.now }
    requires steady { IsSteady layout.now (device_of disk.old) A (empty_control 1) }
    requires call { 1 ≤ call }
{
    let Ok(Slot::B) = commit(disk, layout, Slot::A, 1) else {
        return None;
    };
    match failed_commit(disk, layout, Slot::B, 2, call) {
        Err(ImageError::Fault) => Some(()),
        _ => None,
    }
}

// What the readers say then.
fn study_failed_commit(alloc: Global, call: u64) -> Option<Result<(Slot, u64), Unread>>
    requires { 1 ≤ call }
{
    match steady(alloc) {
        Some((mut disk, layout)) => {
            let told = study_second_failed(alloc, &mut disk, &layout, call);
            drop(disk);
            told
        }
        None => None,
    }
}

fn study_second_failed(
    alloc: Global,
    disk: &mut MemDisk,
    layout: &Layout,
    call: u64,
) -> Option<Result<(Slot, u64), Unread>>
    requires limits { IsLayout layout.now }
    requires steady { IsSteady layout.now (device_of disk.old) A (empty_control 1) }
    requires call { 1 ≤ call }
{
    fail_second_commit(disk, layout, call)?;
    Some(study(alloc, disk))
}

// How many calls of a second commit fail in turn, from the first, behind which its old control shows.
fn failed_commits(alloc: Global) -> u64 {
    for call in 1..100 {
        if study_failed_commit(alloc, call) != Some(Ok((Slot::B, 2))) {
            return call - 1;
        }
    }
    100
}

// A read and six writes and syncs. At the last of them the new control shows already.
#[test]
fn a_fault_in_a_commit_leaves_the_old_control_or_the_new_one(rt: HostRuntime) {
    assert!(rt; failed_commits(rt.alloc()) == 6);
    assert!(rt; study_failed_commit(rt.alloc(), 7) == Some(Ok((Slot::A, 3))));
}

// What a commit over a fresh image answers where the sixth call fails.
fn committed_in_five(alloc: Global) -> Option<Result<Slot, ImageError>> {
    let (mut disk, layout) = steady(alloc)?;
    let answer = failed_commit(&mut disk, &layout, Slot::A, 1, 6);
    drop(disk);
    Some(answer)
}

// Into a slot whose gate is closed there are a read and four writes and syncs.
#[test]
fn a_commit_over_a_closed_gate_makes_five_calls(rt: HostRuntime) {
    assert!(rt; committed_in_five(rt.alloc()) == Some(Ok(Slot::B)));
}
