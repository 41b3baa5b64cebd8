//! Disks that forget, over files that fail.
use crate::flaky_file::Medium;
use crate::steps::{BEYOND, FAULT, OK, Step, go_so, go_so_alone};
use block_disk::Disk;
use disk_file::{BackingFile, BufferedDisk, FileError, VolatileDisk};
use std::alloc::Global;
use std::fs;

// Whether these steps go so on a disk of so many bytes, which is made over a file of these.
fn go_so_over(alloc: Global, file: &[u8], size: u64, steps: &[Step<'_>]) -> bool {
    let medium = Medium::of(file);
    match BufferedDisk::filled(alloc, medium.file(), size) {
        Ok(mut disk) => {
            let is_so = go_so(&medium, &mut disk, steps);
            drop(disk);
            is_so
        }
        Err(_) => false,
    }
}

// Four writes that follow one another, and one apart from them.
const FOLLOWING: &[Step<'_>] = &[
    Step::Write(16, &[1, 2, 3, 4], OK),
    Step::Write(20, &[1, 2, 3, 4], OK),
    Step::Write(24, &[1, 2, 3, 4], OK),
    Step::Write(28, &[1, 2, 3, 4], OK),
    Step::Write(40, &[9], OK),
    Step::Calls(1, 1),
    Step::Sync(OK),
    Step::Calls(3, 2),
    Step::Sync(OK),
    Step::Calls(3, 3),
    Step::Keeps(&[
        0, 0, 0, 0, 0, 0, 0, 0, 0, 0, 0, 0, 0, 0, 0, 0, 1, 2, 3, 4, 1, 2, 3, 4, 1, 2, 3, 4, 1, 2,
        3, 4, 0, 0, 0, 0, 0, 0, 0, 0, 9,
    ]),
];

#[test]
fn writes_that_follow_one_another_reach_the_file_as_one(rt: HostRuntime) {
    assert!(rt; go_so_over(rt.alloc(), &[], 41, FOLLOWING));
}

// The second call of the file in the first sync fails.
const FAILING: &[Step<'_>] = &[
    Step::Write(0, &[1, 2], OK),
    Step::Write(8, &[3, 4], OK),
    Step::Fail(2),
    Step::Sync(FAULT),
    Step::Failures(1),
    Step::Has(&[1, 2, 0, 0, 0, 0, 0, 0, 3, 0]),
    Step::Read(8, &[3, 4]),
    Step::Sync(OK),
    Step::Has(&[1, 2, 0, 0, 0, 0, 0, 0, 3, 4]),
];

#[test]
fn a_sync_that_failed_is_made_good_by_the_next(rt: HostRuntime) {
    assert!(rt; go_so_over(rt.alloc(), &[], 10, FAILING));
}

const AT_THE_END: &[Step<'_>] = &[
    Step::Write(15, &[1, 2], BEYOND),
    Step::Write(14, &[1, 2], OK),
    Step::Sync(OK),
    Step::Read(14, &[1, 2]),
    Step::Size(16),
];

fn go_so_on_a_volatile_disk(alloc: Global) -> bool {
    match VolatileDisk::new(alloc, 16) {
        Ok(mut disk) => {
            let is_so = go_so_alone(&mut disk, AT_THE_END);
            drop(disk);
            is_so
        }
        Err(_) => false,
    }
}

#[test]
fn what_lies_past_the_end_is_refused(rt: HostRuntime) {
    assert!(rt; go_so_over(rt.alloc(), &[], 16, AT_THE_END));
    assert!(rt; go_so_on_a_volatile_disk(rt.alloc()));
}

fn cross<T: Send>(_value: &T) {}

fn is_let_across(alloc: Global) -> bool {
    match VolatileDisk::new(alloc, 16) {
        Ok(volatile) => {
            cross(&volatile);
            true
        }
        Err(_) => false,
    }
}

#[test]
fn disks_may_go_to_another_thread(rt: HostRuntime) {
    assert!(rt; is_let_across(rt.alloc()));
}

// Two ranges that are no neighbours, so that a sync makes three calls of the file: two writes and a sync of it. The one of
// this number fails, and the system may forget then what it could not keep.
fn is_mended(alloc: Global, call: u64) -> bool {
    let steps = [
        Step::Write(0, &[1, 2], OK),
        Step::Write(4, &[3, 4], OK),
        Step::Fail(call),
        Step::Sync(FAULT),
        Step::Size(6),
        Step::Read(0, &[1, 2, 0, 0, 3, 4]),
        Step::Forget,
        Step::Sync(OK),
        Step::Keeps(&[1, 2, 0, 0, 3, 4]),
    ];
    go_so_over(alloc, &[9, 9], 6, &steps)
}

#[test]
fn a_fault_at_each_call_of_a_sync_is_mended_by_the_next(rt: HostRuntime) {
    let alloc = rt.alloc();
    assert!(rt; is_mended(alloc, 1) && is_mended(alloc, 2) && is_mended(alloc, 3));
}

// Whether there is no disk over a file whose call of this number fails.
fn is_not_filled(alloc: Global, call: u64) -> bool {
    let medium = Medium::failing(&[1, 2], call);
    match BufferedDisk::filled(alloc, medium.file(), 4) {
        Ok(disk) => {
            drop(disk);
            false
        }
        Err(why) => why == FileError::Fault,
    }
}

fn is_not_found(alloc: Global, call: u64) -> bool {
    let medium = Medium::failing(&[1, 2], call);
    match BufferedDisk::found(alloc, medium.file(), &[1]) {
        Ok(disk) => {
            drop(disk);
            false
        }
        Err(why) => why == FileError::Fault,
    }
}

#[test]
fn a_fault_at_each_call_makes_no_buffered_disk(rt: HostRuntime) {
    let alloc = rt.alloc();
    assert!(rt; is_not_filled(alloc, 1) && is_not_filled(alloc, 2) && is_not_filled(alloc, 3));
    assert!(rt; is_not_found(alloc, 1) && is_not_found(alloc, 2));
    assert!(rt; is_not_found(alloc, 3) && is_not_found(alloc, 4));
}

// A sync alone leaves what the device hasn't: another process wrote it, and the system takes it for written.
fn is_left_by_a_sync() -> bool {
    let medium = Medium::stale(&[1, 2, 3, 4], &[1, 9, 9, 4]);
    let is_synced = medium.file().settle().is_ok();
    is_synced && medium.has(&[1, 2, 3, 4]) && medium.keeps(&[1, 9, 9, 4])
}

// An opening writes the byte at the place again, and the disk what is written to it. A place past the end is left out.
const BROUGHT: &[Step<'_>] = &[
    Step::Has(&[1, 2, 3, 4]),
    Step::Keeps(&[1, 2, 9, 4]),
    Step::Calls(1, 2),
    Step::Read(0, &[1, 2, 3, 4]),
    Step::Write(2, &[3], OK),
    Step::Sync(OK),
    Step::Keeps(&[1, 2, 3, 4]),
];

const GOING_ON: &[Step<'_>] = &[
    Step::Sync(FAULT),
    Step::Size(4),
    Step::Read(0, &[1, 2, 3, 4]),
];

fn is_found_so(alloc: Global, medium: &Medium, steps: &[Step<'_>]) -> bool {
    match BufferedDisk::found(alloc, medium.file(), &[1, 4]) {
        Ok(mut disk) => {
            let is_so = go_so(medium, &mut disk, steps);
            drop(disk);
            is_so
        }
        Err(_) => false,
    }
}

#[test]
fn an_opening_brings_to_the_device_what_it_has_read_at_a_place(rt: HostRuntime) {
    let medium = Medium::stale(&[1, 2, 3, 4], &[1, 9, 9, 4]);
    assert!(rt; is_left_by_a_sync());
    assert!(rt; is_found_so(rt.alloc(), &medium, BROUGHT));
}

// The fifth call of the file is that of the sync: an opening syncs, reads, writes a byte and syncs.
#[test]
fn a_disk_that_was_found_goes_on_after_a_fault(rt: HostRuntime) {
    let medium = Medium::failing(&[1, 2, 3, 4], 5);
    assert!(rt; is_found_so(rt.alloc(), &medium, GOING_ON));
}

// What was not synced is lost with the disk, as in a crash.
const WRITTEN: &[Step<'_>] = &[
    Step::Write(1, &[5, 6], OK),
    Step::Sync(OK),
    Step::Write(0, &[7], OK),
];

fn is_written_to_a_file(rt: &HostRuntime) -> bool {
    match BufferedDisk::create(rt, rt.alloc(), "buffered", 4) {
        Ok(mut disk) => {
            let is_so = go_so_alone(&mut disk, WRITTEN);
            drop(disk);
            is_so
        }
        Err(_) => false,
    }
}

fn is_read_of_a_file(rt: &HostRuntime) -> bool {
    match BufferedDisk::attach(rt, rt.alloc(), "buffered", &[]) {
        Ok(mut disk) => {
            let is_so = go_so_alone(&mut disk, &[Step::Read(0, &[0, 5, 6, 0])]);
            drop(disk);
            is_so
        }
        Err(_) => false,
    }
}

fn is_attached(rt: &HostRuntime) -> bool {
    fs::write(rt, "buffered", "longer than the disk").is_ok()
        && is_written_to_a_file(rt)
        && is_read_of_a_file(rt)
}

#[test]
fn a_file_is_attached_with_what_was_synced(rt: HostRuntime) {
    assert!(rt; is_attached(&rt));
}

fn is_missing(rt: &HostRuntime) -> bool {
    match BufferedDisk::attach(rt, rt.alloc(), "missing", &[]) {
        Ok(disk) => {
            drop(disk);
            false
        }
        Err(why) => why == FileError::Fault,
    }
}

fn is_empty(rt: &HostRuntime) -> bool {
    if fs::write(rt, "none", "").is_err() {
        return false;
    }
    match BufferedDisk::attach(rt, rt.alloc(), "none", &[0]) {
        Ok(mut disk) => {
            let is_so = go_so_alone(&mut disk, &[Step::Size(0), Step::Sync(OK)]);
            drop(disk);
            is_so
        }
        Err(_) => false,
    }
}

#[test]
fn a_missing_file_is_a_fault_and_an_empty_one_is_none(rt: HostRuntime) {
    assert!(rt; is_missing(&rt) && is_empty(&rt));
}

// Whether the file of three bytes is attached, or there is no memory for it.
fn is_attached_or_refused(rt: &HostRuntime) -> bool {
    match BufferedDisk::attach(rt, rt.alloc(), "image", &[0]) {
        Ok(disk) => {
            let is_so = disk.size() == 3;
            drop(disk);
            is_so
        }
        Err(error) => error == FileError::NoMemory,
    }
}

// Whether a disk is made in it, or there is no memory for it and the file is as it was.
fn is_created_or_refused(rt: &HostRuntime) -> bool {
    match BufferedDisk::create(rt, rt.alloc(), "image", 2) {
        Ok(disk) => {
            let is_so = disk.size() == 2;
            drop(disk);
            is_so
        }
        Err(error) => error == FileError::NoMemory && file_has_three_bytes(rt),
    }
}

fn file_has_three_bytes(rt: &HostRuntime) -> bool {
    match fs::metadata(rt, "image") {
        Ok(found) => found.len() == 3,
        Err(_) => false,
    }
}

// Run with each allocation refused in turn: there is no disk then and an old file is as it was.
#[test]
fn a_refused_allocation_makes_no_disk(rt: HostRuntime) {
    assert!(rt; fs::write(&rt, "image", "123").is_ok());
    assert!(rt; is_attached_or_refused(&rt) && is_attached_or_refused(&rt));
    assert!(rt; is_created_or_refused(&rt));
}

fn reads_as(alloc: Global, error: FileError, words: &str) -> bool {
    match format!(in alloc; "{error}") {
        Ok(text) => {
            let is_so = text.as_str() == words;
            drop(text);
            is_so
        }
        Err(_) => false,
    }
}

#[test]
fn errors_have_texts(rt: HostRuntime) {
    assert!(rt; reads_as(rt.alloc(), FileError::Fault, "fault"));
    assert!(rt; reads_as(rt.alloc(), FileError::NoMemory, "no memory"));
}
