//! The device of a host, as bytes.

use block_disk::{MemDisk, lies_within, overwrite};
use disk_deferred::DeviceCall;
use recover::recover;
use std::alloc::Global;

/// The bytes of a device as they were written, and as the last sync left them.
#[derive(Drop)]
pub struct Device {
    pub written: Vec<u8>,
    pub synced: Vec<u8>,
}

impl Device {
    /// A device of so many zero bytes, durably.
    pub fn zeros(alloc: Global, size: u64) -> Option<Device> {
        let written = vec![in alloc; 0u8; size as usize].ok()?;
        match written.to_vec(alloc) {
            Ok(synced) => Some(Device { written, synced }),
            Err(_) => {
                drop(written);
                None
            }
        }
    }

    /// Makes the call. Returns whether it could be made.
    pub fn make(&mut self, alloc: Global, call: &DeviceCall) -> bool {
        match call {
            DeviceCall::Write { at, bytes } => write(&mut self.written, *at, bytes),
            DeviceCall::Sync => self.sync(alloc),
        }
    }

    fn sync(&mut self, alloc: Global) -> bool {
        match self.written.to_vec(alloc) {
            Ok(bytes) => {
                self.synced = bytes;
                true
            }
            Err(_) => false,
        }
    }
}

// Puts these bytes at `at`, where they lie within.
fn write(image: &mut [u8], at: u64, bytes: &[u8]) -> bool {
    if !lies_within(at, bytes.len(), image.len()) {
        return false;
    }
    overwrite(image, at, bytes);
    true
}

/// The values of the first two fields that recovery gives of these bytes. `None` is a refusal.
pub fn values_of(alloc: Global, bytes: &[u8]) -> Option<(u64, u64)> {
    let Ok(disk) = MemDisk::from_bytes(alloc, bytes) else {
        return None;
    };
    match recover(alloc, disk) {
        Ok((recovered, report)) => {
            let values = first_two(recovered.heap());
            drop(report);
            drop(recovered);
            values
        }
        Err((disk, _)) => {
            drop(disk);
            None
        }
    }
}

fn first_two(values: &[u64]) -> Option<(u64, u64)> {
    match values {
        [first, second, ..] => Some((*first, *second)),
        _ => None,
    }
}
