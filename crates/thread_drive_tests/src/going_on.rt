//! Workers that go on with what others have left.

use crate::apart::Apart;
use block_disk::MemDisk;
use std::alloc::Global;
use std::sync::Wait;
use std::thread::Threads;
use thread_drive::{DriveError, Driven, drive_new, drive_on, image_size};

// A disk on which two workers have worked so many rounds.
fn worked_on<R: Threads + Wait + Sync>(rt: &R, alloc: Global, rounds: u32) -> Option<MemDisk> {
    let size = image_size(alloc, 2).ok()?;
    let Ok(disk) = MemDisk::new(alloc, size) else {
        return None;
    };
    match drive_new(rt, alloc, &Apart, disk, 2, rounds) {
        Ok((recovered, driven)) => {
            drop(driven);
            Some(recovered.into_disk())
        }
        Err((disk, _)) => {
            drop(disk);
            None
        }
    }
}

// What so many workers leave there after so many rounds more: sections of the first lane, and the total; or why they don't.
fn left_later<R: Threads + Wait + Sync>(
    rt: &R,
    alloc: Global,
    workers: u8,
    rounds: u32,
) -> Option<Result<(u64, u64), DriveError>> {
    let disk = worked_on(rt, alloc, 300)?;
    match drive_on(rt, alloc, &Apart, disk, workers, rounds) {
        Ok((recovered, driven)) => {
            let left = told(&driven);
            drop(driven);
            drop(recovered);
            Some(Ok(left))
        }
        Err((disk, refusal)) => {
            drop(disk);
            Some(Err(refusal))
        }
    }
}

fn told(driven: &Driven) -> (u64, u64) {
    (
        driven.acknowledged.first().copied().unwrap_or(0),
        driven.heap.first().copied().unwrap_or(0),
    )
}

#[test]
fn workers_go_on(rt: HostRuntime) {
    let left = left_later(&rt, rt.alloc(), 2, 50);
    assert!(rt; left == Some(Ok((50, 700))));
    let refused = left_later(&rt, rt.alloc(), 3, 50);
    assert!(rt; refused == Some(Err(DriveError::OtherSchema)));
}
