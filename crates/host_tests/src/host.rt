//! A host, which makes the calls that its heap tells, and may stop between any two of them.
//!
//! Each section stores its number, from 1 on, into field 0. So the value that recovery gives the field is how many sections it keeps.

use crate::device::{Device, values_of};
use disk_deferred::{DeviceCall, HostCalls};
use heap_model::Lane;
use host_heap::{AcknowledgedError, HostedHeap};
use std::alloc::Global;

// The most calls that are made before the host gives up.
const MANY: u32 = 1_000;

/// What a host has, and what it knows.
#[derive(Drop)]
pub struct Host {
    pub device: Device,
    // How many sections have ended.
    pub ended: u64,
    // How many sections it was told to be safe: those of earlier lives, and those that this one acknowledged.
    pub safe: u64,
    // Whether an image was made, so that from now on none may be refused.
    pub is_made: bool,
    // How often, had it stopped there, recovery would have refused the image, kept less than what was safe, or more than had ended.
    pub lost: u64,
}

impl Host {
    /// A host with a device of so many zero bytes.
    pub fn of_zeros(alloc: Global, size: u64) -> Option<Host> {
        let device = Device::zeros(alloc, size)?;
        Some(Host {
            device,
            ended: 0,
            safe: 0,
            is_made: false,
            lost: 0,
        })
    }

    /// Stops here for once: looks at what recovery would keep of all that was written, and of what was synced.
    pub fn stop(&mut self, alloc: Global) {
        let written = values_of(alloc, &self.device.written);
        let synced = values_of(alloc, &self.device.synced);
        if !self.is_kept(written) || !self.is_kept(synced) {
            self.lost = self.lost.wrapping_add(1);
        }
    }

    fn is_kept(&self, values: Option<(u64, u64)>) -> bool {
        match values {
            Some((kept, _)) => self.safe <= kept && kept <= self.ended,
            None => !self.is_made,
        }
    }

    // Makes the call, and stops after it for once.
    fn make(&mut self, alloc: Global, call: &DeviceCall) {
        if !self.device.make(alloc, call) {
            self.lost = self.lost.wrapping_add(1);
        }
        self.stop(alloc);
    }
}

// Makes the next call of the heap. Returns whether there was one.
fn make_one(alloc: Global, heap: &mut HostedHeap, host: &mut Host) -> bool {
    heap.fetch();
    match heap.next_call() {
        Some(call) => host.make(alloc, call),
        None => return false,
    }
    heap.done()
}

/// Makes all calls that the heap has handed over.
pub fn make_all(alloc: Global, heap: &mut HostedHeap, host: &mut Host) {
    for _ in 0..MANY {
        if !make_one(alloc, heap, host) {
            return;
        }
    }
}

// Makes the next call that is left of a heap that was closed. Returns whether there was one.
fn make_one_left(alloc: Global, calls: &mut HostCalls, host: &mut Host) -> bool {
    calls.fetch();
    match calls.next_call() {
        Some(call) => host.make(alloc, call),
        None => return false,
    }
    calls.done()
}

/// Makes all calls that are left of a heap that was closed.
pub fn make_left(alloc: Global, calls: &mut HostCalls, host: &mut Host) {
    for _ in 0..MANY {
        if !make_one_left(alloc, calls, host) {
            return;
        }
    }
}

/// Makes the calls of the last round, and answers how many sections are acknowledged then. `None` where that isn't told, or was told
/// before the calls were made.
pub fn acknowledged(
    alloc: Global,
    heap: &mut HostedHeap,
    host: &mut Host,
    earlier: u64,
) -> Option<u64> {
    let before = heap.acknowledged(Lane(0));
    make_all(alloc, heap, host);
    let sections = heap.acknowledged(Lane(0)).ok()?;
    host.safe = earlier.wrapping_add(sections);
    host.stop(alloc);
    match before {
        Err(AcknowledgedError::CallsLeft) => Some(sections),
        _ => None,
    }
}
