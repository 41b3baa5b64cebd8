//! Openings of a file that reads what its device lacks since a failed sync, cut off at each of their calls.
use super::runs::{released, stored};
use crate::hand_made_logs::formatted_with;
use block_disk::{Disk, Fill, MemDisk};
use disk_file::{BackingFile, BufferedDisk};
use durable::{Store, StoreCall};
use recover::{RecoverError, recover};
use std::alloc::Global;
use std::cell::RefCell;
use std::io;
use std::io::ErrorKind;

// The image of the common schema with two lanes of 2,000 records, and the gates of its header and of both controls.
const SIZE: u64 = 66_208;

const GATES: [u64; 3] = [8, 64, 1112];

// What a failed sync leaves of what was written since the last one: in each even place, and in each odd one.
type Pattern = (Fill, Fill);

const PATTERNS: [Pattern; 4] = [
    KEPT,
    (Fill::Lost, Fill::Lost),
    (Fill::Lost, Fill::Kept),
    (Fill::Byte(165), Fill::Byte(0)),
];

const KEPT: Pattern = (Fill::Kept, Fill::Kept);

// What a crash leaves of what was written since the last sync.
const FILLS: [Fill; 3] = [Fill::Lost, Fill::Kept, Fill::Byte(165)];

// Which bytes an opening writes again: the gates, as files are opened; none; or all, like any other write.
#[derive(Clone, Copy, PartialEq, Eq)]
enum Way {
    Gates,
    Nothing,
    All,
}

// What a file reads, and what its device has.
#[derive(Drop)]
struct Disks {
    reads: MemDisk,
    device: MemDisk,
}

fn told(is_so: bool) -> io::Result<()> {
    if is_so {
        Ok(())
    } else {
        Err(ErrorKind::Other.into())
    }
}

fn write(disks: &mut Disks, at: u64, bytes: &[u8]) -> bool {
    disks.reads.write_at(at, bytes).is_ok() && disks.device.write_at(at, bytes).is_ok()
}

// The premise: a byte that the device has isn't lost where it is written again with its own value.
fn write_back(disks: &mut Disks, at: u64) -> bool {
    let (mut byte, mut kept) = ([0], [0]);
    let is_read = disks.reads.read_at(at, &mut byte).is_ok();
    let is_kept = disks.device.read_at(at, &mut kept).is_ok() && byte == kept;
    is_read && (is_kept || write(disks, at, &byte))
}

#[derive(Drop)]
struct CachedFile<'a> {
    disks: &'a RefCell<Disks>,
}

impl BackingFile for CachedFile<'_> {
    fn len(&self) -> io::Result<u64> {
        Ok(SIZE)
    }

    fn empty(&mut self) -> io::Result<()> {
        told(false)
    }

    fn read_from(&mut self, at: u64, out: &mut [u8]) -> io::Result<()> {
        match self.disks.try_borrow_mut() {
            Ok(mut disks) => told(disks.reads.read_at(at, out).is_ok()),
            Err(_) => told(false),
        }
    }

    fn write_to(&mut self, at: u64, bytes: &[u8]) -> io::Result<()> {
        match self.disks.try_borrow_mut() {
            Ok(mut disks) => told(write(&mut disks, at, bytes)),
            Err(_) => told(false),
        }
    }

    fn write_back(&mut self, at: u64) -> io::Result<()> {
        match self.disks.try_borrow_mut() {
            Ok(mut disks) => told(write_back(&mut disks, at)),
            Err(_) => told(false),
        }
    }

    fn settle(&mut self) -> io::Result<()> {
        match self.disks.try_borrow_mut() {
            Ok(mut disks) => told(disks.device.sync().is_ok()),
            Err(_) => told(false),
        }
    }
}

fn take_odd(bytes: &mut [u8], odd: &[u8]) -> Option<()> {
    for (at, byte) in odd.iter().enumerate() {
        if at % 2 == 1 {
            *bytes.get_mut(at)? = *byte;
        }
    }
    Some(())
}

fn by_turns(alloc: Global, even: &MemDisk, odd: &MemDisk) -> Option<MemDisk> {
    let mut bytes = even.bytes().to_vec(alloc).ok()?;
    let is_taken = take_odd(&mut bytes, odd.bytes()).is_some();
    let disk = MemDisk::from_bytes(alloc, &bytes).ok();
    drop(bytes);
    if is_taken { disk } else { None }
}

// What a crash leaves of the disk that comes with call `k` begun.
fn left(alloc: Global, disk: &MemDisk, k: u64, pattern: Pattern) -> Option<MemDisk> {
    let even = disk.crash_image(k, pattern.0).ok()??;
    if pattern.0 == pattern.1 {
        return Some(even);
    }
    let Ok(Some(odd)) = disk.crash_image(k, pattern.1) else {
        drop(even);
        return None;
    };
    let both = by_turns(alloc, &even, &odd);
    drop(even);
    drop(odd);
    both
}

// What recovery gives of this disk.
type Given = Result<[u64; 2], RecoverError>;

fn given<D: Disk + Drop>(alloc: Global, disk: D) -> Option<Given> {
    match recover(alloc, disk) {
        Ok((recovered, report)) => {
            drop(report);
            let heap = recovered.heap().as_array::<2>().copied();
            drop(recovered);
            Some(Ok(heap?))
        }
        Err((disk, why)) => {
            drop(disk);
            Some(Err(why))
        }
    }
}

// Opens the file: what recovery gives, and how many calls of the device came before it.
fn opened(alloc: Global, disks: &RefCell<Disks>, way: Way) -> Option<(Given, u64)> {
    let mut file = CachedFile { disks };
    if way == Way::All {
        let bytes = disks.try_borrow().ok()?.reads.bytes().to_vec(alloc).ok()?;
        file.write_to(0, &bytes).ok()?;
    }
    let places = if way == Way::Gates { &GATES[..] } else { &[] };
    let disk = BufferedDisk::found(alloc, file, places).ok()?;
    let before = disks.try_borrow().ok()?.device.stops();
    Some((given(alloc, disk)?, before))
}

// How many crashes were tried, and how many of them lost the heap.
type Tried = (u64, u64);

// Those of an opening that gave this heap. Until the gates are durable a crash may leave the one that the device had.
fn cut_off(alloc: Global, device: &MemDisk, heap: Given, before: u64, had: Given) -> Option<Tried> {
    let mut tried: Tried = (0, 0);
    for k in 1..device.stops().saturating_add(2) {
        for fill in FILLS {
            let found = given(alloc, device.crash_image(k, fill).ok()??)?;
            let is_lost = found != heap && (k > before || found != had);
            tried = (
                tried.0.saturating_add(1),
                tried.1.saturating_add(is_lost as u64),
            );
        }
    }
    Some(tried)
}

// Those of an opening after the sync that is call `k` has failed: the file reads what was written, and its device has what a crash leaves.
fn cut_off_after(
    alloc: Global,
    disk: &MemDisk,
    k: u64,
    pattern: Pattern,
    way: Way,
) -> Option<Tried> {
    let had = given(alloc, left(alloc, disk, k, pattern)?)?;
    let reads = left(alloc, disk, k, KEPT)?;
    let Some(device) = left(alloc, disk, k, pattern) else {
        drop(reads);
        return None;
    };
    if pattern != KEPT && device.bytes() == reads.bytes() {
        drop(reads);
        drop(device);
        return Some((0, 0));
    }
    let disks = RefCell::new(Disks { reads, device });
    let tried = match opened(alloc, &disks, way) {
        Some((Ok(heap), before)) => match disks.try_borrow() {
            Ok(now) => cut_off(alloc, &now.device, Ok(heap), before, had),
            Err(_) => None,
        },
        Some((Err(_), _)) => Some((0, 0)),
        None => None,
    };
    drop(disks);
    tried
}

// Those of an opening after each call, up to the first that loses a heap.
fn cut_off_all(alloc: Global, disk: &MemDisk, way: Way) -> Option<Tried> {
    let mut all: Tried = (0, 0);
    for k in 1..disk.stops().saturating_add(2) {
        for pattern in PATTERNS {
            if all.1 == 0 {
                let (tried, lost) = cut_off_after(alloc, disk, k, pattern, way)?;
                all = (all.0.saturating_add(tried), lost);
            }
        }
    }
    Some(all)
}

// The disk on which a heap was made, and a store has made these calls.
fn life(alloc: Global, calls: &[StoreCall]) -> Option<MemDisk> {
    let made = formatted_with(alloc, MemDisk::new(alloc, SIZE).ok()?, 2, 2000)?;
    let mut store = Store::adopt(alloc, made, 9).ok()?;
    if store.play(calls).is_err() {
        drop(store);
        return None;
    }
    Some(store.into_disk())
}

// Whether each heap is kept. None where too few crashes were tried.
fn keeps_heaps(alloc: Global, calls: &[StoreCall], way: Way) -> Option<bool> {
    let disk = life(alloc, calls)?;
    let tried = cut_off_all(alloc, &disk, way);
    drop(disk);
    let (tried, lost) = tried?;
    if lost == 0 && tried < 1_000 {
        return None;
    }
    Some(lost == 0)
}

#[test] // tools/quick: not
fn an_opening_over_a_stale_cache_keeps_the_heap_wherever_it_is_cut_off(rt: HostRuntime) {
    assert!(rt; keeps_heaps(rt.alloc(), &released(), Way::Gates) == Some(true));
}

// Controls.
#[test] // tools/quick: not
fn an_opening_that_writes_no_gate_or_all_bytes_loses_a_heap(rt: HostRuntime) {
    assert!(rt; keeps_heaps(rt.alloc(), &stored(), Way::Nothing) == Some(false));
    assert!(rt; keeps_heaps(rt.alloc(), &stored(), Way::All) == Some(false));
}
