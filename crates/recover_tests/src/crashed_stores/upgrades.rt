//! Images of version 1, whole and cut off, and what upgrades make of them. Each byte's place follows from docs/FORMAT.md.

use super::altered::changed;
use super::runs::{Outcome, answered, crashed, cut, dropped, kept, recovery_of, stored};
use block_disk::{Fill, MemDisk};
use image::Slot;
use recover::{RecoverError, Why, study, upgrade};
use std::alloc::Global;

const FILLS: [Fill; 4] = [Fill::Lost, Fill::Kept, Fill::Byte(0), Fill::Byte(255)];

// What a section leaves that was logged and written home and isn't settled, with a control of version 1 in both slots.
fn old_image(alloc: Global) -> Option<MemDisk> {
    let image = crashed(alloc, &stored()[..6], Fill::Kept)?;
    let old = changed(alloc, &image, &[(83, 1), (1131, 1)]);
    drop(image);
    old
}

// What an upgrade of this disk answers.
fn upgrade_of(alloc: Global, disk: MemDisk) -> Option<Result<Outcome, RecoverError>> {
    answered(upgrade(alloc, disk))
}

// The section is dropped, and its store undone.
fn undone() -> Outcome {
    Outcome {
        kept: cut(0, 0),
        dropped: [dropped(0, 1, Why::Unsettled), None],
        undone: 1,
        heap: [10, 20],
    }
}

// The slot, the sequence and the version of the control that counts.
fn control_of(alloc: Global, disk: &mut MemDisk) -> Option<(Slot, u64, u32)> {
    let found = study(alloc, disk).ok()?;
    let told = (found.slot, found.control.sequence, found.control.version);
    drop(found);
    Some(told)
}

// What recovery answers of the image, and whether an upgrade answers this.
fn told(alloc: Global) -> Option<[bool; 2]> {
    let refused = recovery_of(alloc, old_image(alloc)?) == Some(Err(RecoverError::OldVersion));
    let upgraded = upgrade_of(alloc, old_image(alloc)?) == Some(Ok(undone()));
    Some([refused, upgraded])
}

#[test]
fn an_image_of_version_1_is_upgraded_and_not_recovered(rt: HostRuntime) {
    assert!(rt; told(rt.alloc()) == Some([true; 2]));
}

// The disk of an upgrade of the image.
fn upgraded(alloc: Global) -> Option<MemDisk> {
    let (recovered, report) = upgrade(alloc, old_image(alloc)?).ok()?;
    drop(report);
    Some(recovered.into_disk())
}

// How many writes and syncs the upgrade makes; and the control before and behind it.
fn controls(alloc: Global) -> Option<(u64, [(Slot, u64, u32); 2])> {
    let mut old = old_image(alloc)?;
    let before = control_of(alloc, &mut old);
    drop(old);
    let before = before?;
    let mut disk = upgraded(alloc)?;
    let stops = disk.stops();
    let behind = control_of(alloc, &mut disk);
    drop(disk);
    Some((stops, [before, behind?]))
}

#[test]
fn an_upgrade_leaves_a_control_of_version_2(rt: HostRuntime) {
    let wanted = [(Slot::B, 2, 1), (Slot::A, 3, 2)];
    assert!(rt; controls(rt.alloc()) == Some((9, wanted)));
}

// The version of the image's control, and whether an upgrade gives the heap from before it.
fn told_of_upgrade(alloc: Global, image: &mut MemDisk) -> Option<(u32, bool)> {
    let (_, _, version) = control_of(alloc, image)?;
    let again = upgrade_of(alloc, changed(alloc, image, &[])?)?;
    Some((version, again.is_ok_and(|outcome| outcome.heap == [10, 20])))
}

// Whether what a crash leaves that comes with call `k` of the upgrade begun upgrades to the heap from before it, and is recovered to
// it where version 2 shows and else refused.
fn goes_on(alloc: Global, disk: &MemDisk, k: u64, fill: Fill) -> Option<bool> {
    let mut image = disk.crash_image(k, fill).ok()??;
    let Some((version, is_upgraded)) = told_of_upgrade(alloc, &mut image) else {
        drop(image);
        return None;
    };
    let recovered = recovery_of(alloc, image)?;
    let wanted = if version == 1 {
        recovered == Err(RecoverError::OldVersion)
    } else {
        recovered == Ok(kept(0, 0, [10, 20]))
    };
    Some(is_upgraded && wanted)
}

// The same of each call, and of a crash behind the last.
fn each_goes_on(alloc: Global, disk: &MemDisk, fill: Fill) -> bool {
    for k in 1..disk.stops().saturating_add(2) {
        if goes_on(alloc, disk, k, fill) != Some(true) {
            return false;
        }
    }
    true
}

fn goes_on_by_fills(alloc: Global) -> Option<bool> {
    let disk = upgraded(alloc)?;
    let goes_on = FILLS.iter().all(|fill| each_goes_on(alloc, &disk, *fill));
    drop(disk);
    Some(goes_on)
}

#[test] // tools/quick: not
fn an_upgrade_cut_off_at_any_call_goes_on(rt: HostRuntime) {
    assert!(rt; goes_on_by_fills(rt.alloc()) == Some(true));
}

// What an upgrade answers of what an upgrade left.
fn twice(alloc: Global) -> Option<Result<Outcome, RecoverError>> {
    upgrade_of(alloc, upgraded(alloc)?)
}

#[test]
fn an_upgrade_of_version_2_is_a_recovery(rt: HostRuntime) {
    assert!(rt; twice(rt.alloc()) == Some(Ok(kept(0, 0, [10, 20]))));
}
