//! Crashes at every stop of three short lives of a disk in memory, with the bytes worked out by hand.
ghost use Rattle.std.specs.Prelude.{◌≤◌, length};
ghost use Rattle.block_disk.specs.Memory.{device_of};

use crate::steps::{Answer, BEYOND, FAULT, OK, Step, go_so_alone, sync, write};
use block_disk::{
    Disk, DiskError, Fault, Fill, MemDisk, make_durable, read_within, write_through, write_within,
};
use std::alloc::Global;

// Makes the call of this number from now on a fault.
fn fail(disk: &mut MemDisk, call: u64)
    requires { 1 ≤ call }
{
    disk.fail_call(call);
}

// What a crash at stop `k` leaves; none where there is no such stop, or where something is pending still.
fn left(disk: &MemDisk, k: u64, fill: Fill) -> Option<MemDisk> {
    let image = disk.crash_image(k, fill).ok()??;
    if image.stops() == 0 {
        Some(image)
    } else {
        drop(image);
        None
    }
}

// Whether a crash at stop `k` leaves these bytes.
fn leaves_with(disk: &MemDisk, k: u64, fill: Fill, bytes: &[u8]) -> bool {
    match left(disk, k, fill) {
        Some(image) => {
            let is_so = image.bytes() == bytes;
            drop(image);
            is_so
        }
        None => false,
    }
}

// What a crash leaves where pending writes are lost, where they are kept, and where each byte of theirs is 0.
type Left<'a> = [&'a [u8]; 3];

fn leaves(disk: &MemDisk, k: u64, wanted: Left<'_>) -> bool {
    let [lost, kept, zeros] = wanted;
    leaves_with(disk, k, Fill::Lost, lost)
        && leaves_with(disk, k, Fill::Kept, kept)
        && leaves_with(disk, k, Fill::Byte(0), zeros)
}

// Whether the stops, from the first to the end, leave what they are to, and there is none before them or behind.
fn are_left(disk: &MemDisk, stops: &[Left<'_>]) -> bool {
    let mut k = 0u64;
    for wanted in stops {
        k = k.saturating_add(1);
        if !leaves(disk, k, *wanted) {
            return false;
        }
    }
    is_no_stop(disk, 0) && is_no_stop(disk, k.saturating_add(1))
}

fn is_no_stop(disk: &MemDisk, k: u64) -> bool {
    match left(disk, k, Fill::Kept) {
        Some(image) => {
            drop(image);
            false
        }
        None => true,
    }
}

// Whether these steps go so on a disk of these bytes, and each of its stops leaves then what it is to.
fn lives_so(alloc: Global, bytes: &[u8], steps: &[Step<'_>], stops: &[Left<'_>]) -> bool {
    match MemDisk::from_bytes(alloc, bytes) {
        Ok(mut disk) => {
            let is_so = go_so_alone(&mut disk, steps) && are_left(&disk, stops);
            drop(disk);
            is_so
        }
        Err(_) => false,
    }
}

// Two writes that overlap, a sync, and two more that overlap.
const OVERLAPPING: &[Step<'_>] = &[
    Step::Write(1, &[11, 12, 13], OK),
    Step::Write(2, &[21, 22], OK),
    Step::Sync(OK),
    Step::Write(4, &[31, 32], OK),
    Step::Write(3, &[41, 42], OK),
];

#[test]
fn a_crash_finds_overlapping_writes_pending_until_the_sync(rt: HostRuntime) {
    let first: &[u8] = &[1, 2, 3, 4, 5, 6];
    let synced: &[u8] = &[1, 11, 21, 22, 5, 6];
    let zeros: &[u8] = &[1, 0, 0, 0, 5, 6];
    let last: &[u8] = &[1, 11, 21, 41, 42, 32];
    let last_zeros: &[u8] = &[1, 11, 21, 0, 0, 0];
    let stops: [Left<'_>; 6] = [
        [first, &[1, 11, 12, 13, 5, 6], zeros],
        [first, synced, zeros],
        [first, synced, zeros],
        [synced, &[1, 11, 21, 22, 31, 32], &[1, 11, 21, 22, 0, 0]],
        [synced, last, last_zeros],
        [synced, last, last_zeros],
    ];
    assert!(rt; lives_so(rt.alloc(), first, OVERLAPPING, &stops));
}

// A write of as many bytes as the disk keeps in place, a sync, a write of one byte more, and one of one less over it.
const SHORT_AND_LONG: &[Step<'_>] = &[
    Step::Write(1, &[1; 16], OK),
    Step::Sync(OK),
    Step::Write(0, &[2; 17], OK),
    Step::Write(3, &[3; 15], OK),
];

#[test]
fn a_crash_finds_short_and_long_writes_alike(rt: HostRuntime) {
    let first: &[u8] = &[9; 18];
    let synced: &[u8] = &[9, 1, 1, 1, 1, 1, 1, 1, 1, 1, 1, 1, 1, 1, 1, 1, 1, 9];
    let zeros: &[u8] = &[9, 0, 0, 0, 0, 0, 0, 0, 0, 0, 0, 0, 0, 0, 0, 0, 0, 9];
    let third: &[u8] = &[2, 2, 2, 2, 2, 2, 2, 2, 2, 2, 2, 2, 2, 2, 2, 2, 2, 9];
    let third_zeros: &[u8] = &[0, 0, 0, 0, 0, 0, 0, 0, 0, 0, 0, 0, 0, 0, 0, 0, 0, 9];
    let last: &[u8] = &[2, 2, 2, 3, 3, 3, 3, 3, 3, 3, 3, 3, 3, 3, 3, 3, 3, 3];
    let stops: [Left<'_>; 5] = [
        [first, synced, zeros],
        [first, synced, zeros],
        [synced, third, third_zeros],
        [synced, last, &[0; 18]],
        [synced, last, &[0; 18]],
    ];
    assert!(rt; lives_so(rt.alloc(), first, SHORT_AND_LONG, &stops));
}

// A write, a write that fails, a sync that fails, and a write. A read counts as a call, and so does a write out of range;
// neither is a stop.
const FAILING: [(u64, &[Step<'_>]); 4] = [
    (
        2,
        &[Step::Write(0, &[9], OK), Step::Write(1, &[8, 8], FAULT)],
    ),
    (1, &[Step::Sync(FAULT), Step::Write(2, &[7], OK)]),
    (1, &[Step::NoRead(0, FAULT)]),
    (
        1,
        &[
            Step::Write(4, &[1], FAULT),
            Step::Write(4, &[1], BEYOND),
            Step::Write(u64::MAX, &[1], BEYOND),
            Step::NoRead(u64::MAX, BEYOND),
            Step::Sync(OK),
            Step::Write(0, &[5, 5], OK),
            Step::Failures(4),
        ],
    ),
];

// Makes the call of the first number from now on a fault, takes the steps, and so on; whether they go so.
fn runs_go_so(disk: &mut MemDisk, runs: &[(u64, &[Step<'_>])]) -> bool {
    for (call, steps) in runs {
        fail(disk, (*call).max(1));
        if !go_so_alone(disk, steps) {
            return false;
        }
    }
    true
}

fn fails_so(alloc: Global, stops: &[Left<'_>]) -> bool {
    match MemDisk::from_bytes(alloc, &[1, 2, 3, 4]) {
        Ok(mut disk) => {
            let is_so = runs_go_so(&mut disk, &FAILING) && are_left(&disk, stops);
            drop(disk);
            is_so
        }
        Err(_) => false,
    }
}

#[test]
fn a_failing_write_is_pending_and_a_failing_sync_fixes_nothing(rt: HostRuntime) {
    let first: &[u8] = &[1, 2, 3, 4];
    let zeros: &[u8] = &[0, 0, 0, 4];
    let synced: &[u8] = &[9, 2, 7, 4];
    let last: &[u8] = &[5, 5, 7, 4];
    let stops: [Left<'_>; 7] = [
        [first, &[9, 2, 3, 4], &[0, 2, 3, 4]],
        [first, &[9, 2, 3, 4], zeros],
        [first, &[9, 2, 3, 4], zeros],
        [first, synced, zeros],
        [first, synced, zeros],
        [synced, last, &[0, 0, 7, 4]],
        [synced, last, &[0, 0, 7, 4]],
    ];
    assert!(rt; fails_so(rt.alloc(), &stops));
}

// What a read that fails answers, and the byte that it leaves alone.
fn failing_read(alloc: Global) -> Option<(Answer, u8)> {
    let mut disk = MemDisk::from_bytes(alloc, &[1]).ok()?;
    let mut out = [0];
    fail(&mut disk, 1);
    let answer = disk.read_at(0, &mut out);
    drop(disk);
    Some((answer, out[0]))
}

#[test]
fn a_failing_read_leaves_its_bytes_alone(rt: HostRuntime) {
    assert!(rt; failing_read(rt.alloc()) == Some((FAULT, 0)));
}

// What any disk does with two bytes at its start, behind its trait.
fn rewrites<D: Disk>(disk: &mut D) -> Result<[u8; 2], DiskError> {
    let mut out = [0; 2];
    disk.write_at(0, &[3, 4])?;
    disk.sync()?;
    disk.read_at(0, &mut out)?;
    Ok(out)
}

// Two bytes, each written by one of the calls within a disk, and read.
fn written_within(disk: &mut MemDisk) -> Result<[u8; 2], Fault>
    requires { 2 ≤ length (device_of disk.old).now.bytes }
{
    let mut out = [0; 2];
    write_within(disk, 0, &[1])?;
    make_durable(disk)?;
    write_through(disk, 1, &[2])?;
    read_within(disk, 0, &mut out)?;
    Ok(out)
}

// What both read, the size and the failures, and whether its bytes are those at last.
fn written_both_ways(alloc: Global) -> Option<([[u8; 2]; 2], [u64; 2], bool)> {
    let mut disk = MemDisk::new(alloc, 4).ok()?;
    let within = written_within(&mut disk).ok()?;
    let again = rewrites(&mut disk).ok()?;
    let is_kept = disk.bytes() == [3, 4, 0, 0].as_slice();
    Some(([within, again], [disk.size(), disk.failures()], is_kept))
}

#[test]
fn calls_within_a_disk_write_sync_and_read(rt: HostRuntime) {
    assert!(rt; written_both_ways(rt.alloc()) == Some(([[1, 2], [3, 4]], [4, 0], true)));
}

fn disk_error_reads(alloc: Global, error: DiskError, words: &str) -> bool {
    match format!(in alloc; "{error}") {
        Ok(text) => {
            let is_so = text.as_str() == words;
            drop(text);
            is_so
        }
        Err(_) => false,
    }
}

fn fault_reads(alloc: Global, words: &str) -> bool {
    match format!(in alloc; "{}", Fault) {
        Ok(text) => {
            let is_so = text.as_str() == words;
            drop(text);
            is_so
        }
        Err(_) => false,
    }
}

#[test]
fn errors_have_texts(rt: HostRuntime) {
    assert!(rt; disk_error_reads(rt.alloc(), DiskError::Fault, "fault"));
    assert!(rt; disk_error_reads(rt.alloc(), DiskError::OutOfRange, "out of range"));
    assert!(rt; fault_reads(rt.alloc(), "fault"));
}

// Every third call is a sync, and the others write their number: into one place, and into more than are kept in place.
fn one_call(disk: &mut MemDisk, call: u8) -> Answer {
    match call % 3 {
        0 => sync(disk),
        1 => write(disk, 1, &[call]),
        _ => write(disk, 1, &[call; 17]),
    }
}

// Makes the call, and where memory is wanting makes it again. How often it was made; none where a refused call has done
// something, or the second one is refused.
fn call_twice(disk: &mut MemDisk, call: u8) -> Option<u64> {
    let (stops, written) = (disk.stops(), disk.bytes().get(1).copied());
    if one_call(disk, call).is_ok() {
        return Some(1);
    }
    if disk.stops() != stops {
        return None;
    }
    if disk.bytes().get(1).copied() != written {
        return None;
    }
    one_call(disk, call).ok()?;
    Some(2)
}

// How often 40 calls were made: so many that each kind has to make the record longer.
fn forty_calls(disk: &mut MemDisk) -> Option<u64> {
    let mut made = 0u64;
    for call in 0u8..40 {
        made = made.saturating_add(call_twice(disk, call)?);
    }
    Some(made)
}

// Seventeen of these bytes between two others.
fn framed(byte: u8) -> [u8; 19] {
    let mut bytes = [byte; 19];
    bytes[0] = 1;
    bytes[18] = 3;
    bytes
}

fn framed_disk(alloc: Global) -> Option<MemDisk> {
    MemDisk::from_bytes(alloc, &framed(2)).ok()
}

// The same, the second time at the latest.
fn framed_disk_again(alloc: Global) -> Option<MemDisk> {
    match framed_disk(alloc) {
        Some(disk) => Some(disk),
        None => framed_disk(alloc),
    }
}

// The stops, the calls that were made but for the failures, and whether the disk and a crash have the bytes that they are to.
fn made_on(disk: &mut MemDisk) -> Option<([u64; 2], [bool; 2])> {
    let made = forty_calls(disk)?;
    let is_left = leaves_with(disk, 40, Fill::Lost, &framed(35))
        || leaves_with(disk, 40, Fill::Lost, &framed(35));
    Some((
        [disk.stops(), made.saturating_sub(disk.failures())],
        [disk.bytes() == framed(38).as_slice(), is_left],
    ))
}

fn made_again(alloc: Global) -> Option<([u64; 2], [bool; 2])> {
    let mut disk = framed_disk_again(alloc)?;
    let made = made_on(&mut disk);
    drop(disk);
    made
}

// Run with each allocation refused in turn: whichever it is, the call says so, has done nothing, and works the next time.
#[test]
fn a_refused_allocation_changes_nothing(rt: HostRuntime) {
    assert!(rt; made_again(rt.alloc()) == Some(([40, 40], [true; 2])));
}

// Whether a write or a sync that is chosen to fail, behind a call that was kept, is a stop.
fn is_stop_as_chosen(disk: &mut MemDisk, call: u8) -> bool {
    let stops = disk.stops();
    fail(disk, 1);
    one_call(disk, call) == Err(DiskError::Fault) && disk.stops() == stops.saturating_add(1)
}

// Of 40 calls, how many are behind one that was kept and are stops, each chosen to fail.
fn stops_as_chosen(disk: &mut MemDisk) -> Option<u8> {
    let mut found = 0u8;
    for call in 0u8..40 {
        call_twice(disk, call)?;
        if is_stop_as_chosen(disk, call) {
            found = found.saturating_add(1);
        }
    }
    Some(found)
}

fn chosen_again(alloc: Global) -> Option<u8> {
    let mut disk = framed_disk_again(alloc)?;
    let found = stops_as_chosen(&mut disk);
    drop(disk);
    found
}

// Whichever allocation is refused: room for the call that is chosen to fail was kept by the one before it.
#[test]
fn a_chosen_failure_is_a_stop(rt: HostRuntime) {
    assert!(rt; chosen_again(rt.alloc()) == Some(40));
}

fn has_two_zeros(alloc: Global) -> bool {
    match MemDisk::new(alloc, 2) {
        Ok(disk) => {
            let is_so = disk.bytes() == [0, 0].as_slice();
            drop(disk);
            is_so
        }
        Err(_) => false,
    }
}

#[test]
fn a_refused_disk_is_made_the_next_time(rt: HostRuntime) {
    assert!(rt; has_two_zeros(rt.alloc()) || has_two_zeros(rt.alloc()));
}
