//! A disk in memory that forgets.
ghost use Rattle.std.specs.Prelude.{◌≡◌, ◌+◌, ◌≤◌, length, replicate, IfOk};
ghost use Rattle.block_disk.specs.Device.{new_device, written};

use block_disk::{Disk, DiskError, Fault, Trace, copy_out, lies_within, put};
use std::alloc::{AllocError, Global};
use std::marker::Model;

/// A disk in memory, which takes its bytes and no more, however long it runs. It never fails.
///
/// It shows no crashes, as [`MemDisk`](block_disk::MemDisk) does.
#[derive(Drop)]
pub struct VolatileDisk {
    bytes: Vec<u8>,
    trace: Trace,
}

impl Model for VolatileDisk {
    ghost use Rattle.std.specs.Prelude.{◌≡◌};
    ghost use Rattle.block_disk.specs.Device.{Device};

    ghost Value = { Device };

    ghost view = { λ d. d.trace.past.device };

    ghost invariant = { λ d. (d.trace.past.device.now.bytes ≡ d.bytes.items) × (d.trace.past.device.failures ≡ 0) };
}

impl VolatileDisk {
    /// A disk of `size` zero bytes.
    pub fn new(alloc: Global, size: u64) -> Result<VolatileDisk, AllocError>
        ensures { IfOk result (λ disk. disk ≡ new_device (replicate size 0)) }
    {
        Ok(VolatileDisk::holding(vec![in alloc; 0u8; size as usize]?))
    }

    /// The disk of these bytes, which it takes for its own.
    pub fn holding(bytes: Vec<u8>) -> VolatileDisk
        ensures { result ≡ new_device bytes.items }
    {
        let trace = Trace::of(&bytes);
        VolatileDisk { bytes, trace }
    }

    /// Writes these bytes at `at`, within the disk.
    pub fn write(&mut self, at: u64, bytes: &[u8])
        requires fits { at + length bytes.now ≤ length self.old.now.bytes }
        // A write within a disk in memory that forgets doesn't fail.
        ensures { self.new ≡ written at bytes.now self.old }
    {
        let _size = self.bytes.len();
        put(&mut self.bytes, at, bytes);
        self.trace.write(at, bytes);
    }
}

impl Disk for VolatileDisk {
    ghost device = { λ d. d };

    fn size(&self) -> u64 {
        self.bytes.len() as u64
    }

    fn read_at(&mut self, at: u64, out: &mut [u8]) -> Result<(), DiskError> {
        if !lies_within(at, out.len(), self.bytes.len()) {
            return Err(DiskError::OutOfRange);
        }
        copy_out(&self.bytes, at, out);
        Ok(())
    }

    fn write_at(&mut self, at: u64, bytes: &[u8]) -> Result<(), DiskError> {
        if !lies_within(at, bytes.len(), self.bytes.len()) {
            return Err(DiskError::OutOfRange);
        }
        self.write(at, bytes);
        Ok(())
    }

    fn write_units(&mut self, at: u64, bytes: &[u8], count: usize) -> Result<(), Fault> {
        let _size = self.bytes.len();
        put(&mut self.bytes, at, bytes);
        self.trace.write_units(at, bytes, count);
        Ok(())
    }

    fn sync(&mut self) -> Result<(), DiskError> {
        self.trace.sync();
        Ok(())
    }

    fn failures(&self) -> u64 {
        let _ = &self.trace;
        0
    }
}
