//! A short life of a deferred disk, and the calls that its host makes of it.
use block_disk::Disk;
use disk_deferred::{DeferredDisk, DeviceCall, HostCalls, SYNCS};
use std::alloc::Global;

// Makes the next call on this device. Returns whether there was one.
fn make_one(calls: &mut HostCalls, device: &mut Vec<u8>, syncs: &mut u64) -> bool {
    calls.fetch();
    match calls.next_call() {
        None => return false,
        Some(DeviceCall::Sync) => *syncs = syncs.wrapping_add(1),
        Some(DeviceCall::Write { at, bytes }) => {
            for (i, byte) in bytes.iter().enumerate() {
                let place = (*at as usize).wrapping_add(i);
                if place < device.len() {
                    device[place] = *byte;
                }
            }
        }
    }
    calls.done()
}

// The host's device and its syncs after each of the calls, as numbers of its bytes, the first one 1,000s.
fn lives(alloc: Global) -> Option<([u64; 6], u64)> {
    let (mut disk, mut calls) = DeferredDisk::from_bytes(alloc, &[1, 2, 3]).ok()?;
    let mut device = [1u8, 2, 3].to_vec(alloc).ok()?;
    let mut syncs = 0;
    let mut found = [0; 6];
    disk.write_at(0, &[4, 5]).ok()?;
    disk.sync().ok()?;
    disk.write_at(2, &[6]).ok()?;
    for place in found.iter_mut() {
        let made = make_one(&mut calls, &mut device, &mut syncs);
        let number = number_of(&device);
        *place = if made {
            number
        } else {
            number.wrapping_add(1000)
        };
    }
    disk.sync().ok()?;
    make_one(&mut calls, &mut device, &mut syncs);
    found[5] = number_of(&device);
    Some((found, syncs))
}

fn number_of(device: &[u8]) -> u64 {
    let mut number = 0u64;
    for byte in device {
        number = number.wrapping_mul(10).wrapping_add(u64::from(*byte));
    }
    number
}

// A write comes first, then its sync; what is written after that isn't handed over before the next one.
#[test]
fn the_host_makes_the_calls_in_order(rt: HostRuntime) {
    assert!(rt; lives(rt.alloc()) == Some(([453, 453, 1453, 1453, 1453, 456], 1)));
}

// How many syncs there are until one is refused, and whether there is one more once the host has taken some.
fn filled(alloc: Global) -> Option<(usize, bool, u64)> {
    let (mut disk, mut calls) = DeferredDisk::new(alloc, 1).ok()?;
    let mut count = 0usize;
    for _ in 0..100 {
        if disk.sync().is_ok() {
            count = count.wrapping_add(1);
        }
    }
    let mut device = [0u8].to_vec(alloc).ok()?;
    let mut syncs = 0;
    make_one(&mut calls, &mut device, &mut syncs);
    Some((count, disk.sync().is_ok(), disk.failures()))
}

#[test]
fn a_host_that_makes_no_calls_stops_the_syncs(rt: HostRuntime) {
    assert!(rt; filled(rt.alloc()) == Some((SYNCS, true, 36)));
}

// The size of the write that is told next, or 0 for a sync; 1,000,000 where none is.
fn next_size(calls: &mut HostCalls) -> usize {
    calls.fetch();
    let size = match calls.next_call() {
        Some(DeviceCall::Write { bytes, .. }) => bytes.len(),
        Some(DeviceCall::Sync) => 0,
        None => 1_000_000,
    };
    let _ = calls.done();
    size
}

// The sizes of the writes as which 300 of 16 bytes in a row are told, one elsewhere, and one behind that after a sync.
fn sizes(alloc: Global) -> Option<[usize; 7]> {
    let (mut disk, mut calls) = DeferredDisk::new(alloc, 10_000).ok()?;
    for i in 0..300u64 {
        disk.write_at(i * 16, &[7; 16]).ok()?;
    }
    disk.write_at(9_000, &[8; 3]).ok()?;
    disk.sync().ok()?;
    disk.write_at(9_003, &[9]).ok()?;
    disk.sync().ok()?;
    let mut found = [0; 7];
    for place in found.iter_mut() {
        *place = next_size(&mut calls);
    }
    Some(found)
}

#[test]
fn writes_in_a_row_are_told_as_one(rt: HostRuntime) {
    assert!(rt; sizes(rt.alloc()) == Some([4_096, 704, 3, 0, 1, 0, 1_000_000]));
}
