//! Workers on a disk that fails.

ghost use Rattle.std.specs.Prelude.{◌≤◌};

use crate::apart::Apart;
use block_disk::MemDisk;
use durable::StoreError;
use image::ImageError;
use recover::RecoverError;
use std::alloc::Global;
use std::sync::Wait;
use std::thread::Threads;
use thread_drive::{DriveError, drive_new, image_size};
use trim_helper::CloseError;

// Why two workers haven't worked so many rounds on a disk whose call of this number fails; `None` where they have.
fn refusal_at<R: Threads + Wait + Sync>(
    rt: &R,
    alloc: Global,
    call: u64,
    rounds: u32,
) -> Option<DriveError>
    requires { 1 ≤ call }
{
    let Ok(size) = image_size(alloc, 2) else {
        return Some(DriveError::NoMemory);
    };
    let Ok(mut disk) = MemDisk::new(alloc, size) else {
        return Some(DriveError::NoMemory);
    };
    disk.fail_call(call);
    match drive_new(rt, alloc, &Apart, disk, 2, rounds) {
        Ok(done) => {
            drop(done);
            None
        }
        Err((disk, refusal)) => {
            drop(disk);
            Some(refusal)
        }
    }
}

// Whether the fault of a device is told as what it is.
fn is_fault(refusal: Option<DriveError>) -> bool {
    match refusal {
        Some(DriveError::Image(why)) => why == ImageError::Fault,
        Some(DriveError::Helper(why)) => why == StoreError::Fault,
        Some(DriveError::Close(why)) => why == CloseError::Fault,
        Some(DriveError::Recover(why)) => why == RecoverError::Fault,
        _ => false,
    }
}

// At how many of the first calls, so many, the fault is told.
fn faults_told<R: Threads + Wait + Sync>(rt: &R, alloc: Global, calls: u64) -> u64 {
    let mut told = 0u64;
    for call in 1..calls.saturating_add(1) {
        if is_fault(refusal_at(rt, alloc, call, 20)) {
            told = told.saturating_add(1);
        }
    }
    told
}

#[test]
fn each_fault_is_told(rt: HostRuntime) {
    assert!(rt; faults_told(&rt, rt.alloc(), 50) == 50);
}

// The helper stops long before the workers have ended, whose lanes are full then.
#[test]
fn workers_stop_with_the_helper(rt: HostRuntime) {
    let refusal = refusal_at(&rt, rt.alloc(), 400, 10_000);
    assert!(rt; refusal == Some(DriveError::Helper(StoreError::Fault)));
}
