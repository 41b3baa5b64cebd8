//! Images studied and recovered.
use super::{acq, fresh, image_with, rel, row, store};
use block_disk::MemDisk;
use heap_model::{Lane, UndoRecord};
use image::{LaneRow, Recovered};
use recover::{Dropped, RecoverError, Report, Study, Why, recover, study};
use std::alloc::Global;

// What a recovery of zeros answers, and how many calls it makes that change the device.
fn zeros(alloc: Global) -> Option<(RecoverError, u64)> {
    let disk = MemDisk::new(alloc, 130_208).ok()?;
    match recover(alloc, disk) {
        Err((disk, error)) => {
            let stops = disk.stops();
            drop(disk);
            Some((error, stops))
        }
        Ok(made) => {
            drop(made);
            None
        }
    }
}

// The one call that changes anything is the first sync.
#[test]
fn zeros_are_not_formatted(rt: HostRuntime) {
    assert!(rt; zeros(rt.alloc()) == Some((RecoverError::NotFormatted, 1)));
}

// The two values that a study finds, the sequence, and how many sections are dropped.
type Studied = ([u64; 2], u64, usize);

fn told_of_study(found: &Study) -> Option<Studied> {
    let heap = *found.heap.as_array::<2>()?;
    Some((heap, found.control.sequence, found.report.dropped.len()))
}

fn studied(alloc: Global, disk: &mut MemDisk) -> Option<Studied> {
    let found = study(alloc, disk).ok()?;
    let told = told_of_study(&found);
    drop(found);
    told
}

// The two values that recovery gives, how many fields it put back, and by how many calls of the device.
type Recovery = ([u64; 2], u32, u64);

// The two values of what was recovered. None where other sections are dropped.
fn heap_of(
    recovered: &Recovered<MemDisk>,
    report: &Report,
    dropped: &[Dropped],
) -> Option<[u64; 2]> {
    if report.dropped.as_slice() != dropped {
        return None;
    }
    recovered.heap().as_array::<2>().copied()
}

// What recovery makes of an image, and the disk that it leaves. None where other sections are dropped.
fn recovered(alloc: Global, disk: MemDisk, dropped: &[Dropped]) -> Option<(Recovery, MemDisk)> {
    let before = disk.stops();
    let (recovered, report) = recover(alloc, disk).ok()?;
    let heap = heap_of(&recovered, &report, dropped);
    let undone = report.undone;
    drop(report);
    let left = recovered.into_disk();
    let Some(heap) = heap else {
        drop(left);
        return None;
    };
    let calls = left.stops().wrapping_sub(before);
    Some(((heap, undone, calls), left))
}

fn told_of_formatted(alloc: Global) -> Option<(Studied, Recovery)> {
    let mut disk = fresh(alloc)?;
    let Some(found) = studied(alloc, &mut disk) else {
        drop(disk);
        return None;
    };
    let (recovery, left) = recovered(alloc, disk, &[])?;
    drop(left);
    Some((found, recovery))
}

// It takes two syncs and the four calls of a commit over a closed gate.
#[test]
fn a_formatted_image_keeps_its_heap(rt: HostRuntime) {
    let wanted = (([10, 20], 1, 0), ([10, 20], 0, 6));
    assert!(rt; told_of_formatted(rt.alloc()) == Some(wanted));
}

// What recovery makes of an image with these logs, which drops these sections, and what is studied then.
fn told_of_logs(
    alloc: Global,
    rows: [LaneRow; 2],
    first: &[UndoRecord],
    second: &[UndoRecord],
    dropped: &[Dropped],
) -> Option<(Recovery, Studied)> {
    let disk = image_with(alloc, rows, first, second)?;
    let (recovery, mut left) = recovered(alloc, disk, dropped)?;
    let found = studied(alloc, &mut left);
    drop(left);
    Some((recovery, found?))
}

// The second lane's field took 20, and its section hasn't ended; the first lane's was acknowledged. There is one write more
// than where no field takes a value back.
#[test]
fn an_old_value_goes_back(rt: HostRuntime) {
    let first = [acq(0, 0), store(0), rel(0, 0)];
    let second = [acq(1, 0), store(1)];
    let rows = [row(3, 3, 1), row(0, 2, 0)];
    let dropped = [Dropped {
        lane: Lane(1),
        section: 1,
        why: Why::Unfinished,
    }];
    let told = told_of_logs(rt.alloc(), rows, &first, &second, &dropped);
    assert!(rt; told == Some((([10, 10], 1, 7), ([10, 10], 2, 0))));
}
