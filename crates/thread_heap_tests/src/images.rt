//! What recovery gives of the disk of a heap that was closed or crashed.

use block_disk::{Fill, MemDisk};
use headline::recover_left;
use heap_model::Cut;
use recover::recover;
use std::alloc::Global;

/// The values that recovery gives the three fields. `None` is a refusal.
pub fn values_on(alloc: Global, disk: MemDisk) -> Option<[u64; 3]> {
    match recover(alloc, disk) {
        Ok((recovered, _report)) => all_three(recovered.heap()),
        Err(_) => None,
    }
}

fn all_three(values: &[u64]) -> Option<[u64; 3]> {
    match values {
        [all, first, second] => Some([*all, *first, *second]),
        _ => None,
    }
}

/// What a crash may leave.
pub trait Expected {
    /// Whether these are values that recovery may give, where it keeps so many sections.
    fn is_met(&self, values: &[u64], kept: &Cut) -> bool;
}

// Whether recovery gives of this disk, which a crash left, what is expected.
fn recovers<E: Expected>(alloc: Global, disk: MemDisk, expected: &E) -> bool {
    match recover_left::<MemDisk, MemDisk>(alloc, disk) {
        Ok((recovered, report)) => {
            let is_met = expected.is_met(recovered.heap(), &report.kept);
            drop(recovered);
            drop(report);
            is_met
        }
        Err((disk, _why)) => {
            drop(disk);
            false
        }
    }
}

// The same of what a crash leaves that comes with this stop begun.
fn recovers_at<E: Expected>(
    alloc: Global,
    disk: &MemDisk,
    stop: u64,
    fill: Fill,
    expected: &E,
) -> bool {
    match disk.crash_image(stop, fill) {
        Ok(Some(image)) => recovers(alloc, image, expected),
        _ => false,
    }
}

// Of how many stops in a row a crash is tried at one.
const STRIDE: u64 = 1; // tools/quick: 8

/// Whether it gives that of what a crash leaves at each stop of the disk after so many, and of what one leaves now.
pub fn recover_each<E: Expected>(
    alloc: Global,
    disk: &MemDisk,
    before: u64,
    fill: Fill,
    expected: &E,
) -> bool {
    let first = before.saturating_add(1);
    let last = disk.stops().saturating_add(1);
    let end = last.saturating_add(1);
    let mut each = first < end;
    for stop in first..end {
        if stop % STRIDE == 0 || stop == last {
            each &= recovers_at(alloc, disk, stop, fill, expected);
        }
    }
    each
}

/// The same with all that wasn't synced lost, and with all of it kept.
pub fn recover_either<E: Expected>(
    alloc: Global,
    disk: &MemDisk,
    before: u64,
    expected: &E,
) -> bool {
    let lost = recover_each(alloc, disk, before, Fill::Lost, expected);
    let kept = recover_each(alloc, disk, before, Fill::Kept, expected);
    lost && kept
}
