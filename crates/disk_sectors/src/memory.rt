//! A device of sectors in memory.
ghost use Rattle.std.specs.Prelude.{◌≡◌, ◌↔◌, ◌+◌, ◌≤◌, IsTrue, length, replicate, IfOk};
ghost use Rattle.block_disk.specs.Bytes.{spliced};
ghost use Rattle.block_disk.specs.Device.{new_device};
ghost use Rattle.disk_sectors.specs.Access.{HasSector, sector_lost};

use crate::error::SectorError;
use crate::sectors::Sectors;
use crate::size::SectorSize;
use block_disk::{Fault, Trace};
use std::alloc::{AllocError, Global};
use std::marker::Model;

// What stands for a byte that can't be read.
const LOST: u16 = 256;

/// A device of sectors in memory, for tests: any of them can be made unreadable, as a crash may one that was being written.
#[derive(Drop)]
pub struct MemSectors {
    // A byte in each place, or LOST.
    numbers: Vec<u16>,
    size: SectorSize,
    trace: Trace,
}

impl Model for MemSectors {
    ghost use Rattle.std.specs.Prelude.{◌≡◌};
    ghost use Rattle.disk_sectors.specs.Memory.{Memory};

    ghost Value = { Memory };

    ghost view = { λ s. record { device = s.trace.past.device; size = s.size } };

    ghost invariant = { λ s. s.trace.past.device.now.bytes ≡ s.numbers.items };
}

impl MemSectors {
    /// A device of these bytes, durably. Those behind the last whole sector are in none.
    pub fn from_bytes(
        alloc: Global,
        size: SectorSize,
        bytes: &[u8],
    ) -> Result<MemSectors, AllocError>
        ensures { IfOk result (λ sectors. sectors
            ≡ record { device = new_device bytes.now; size = size }) }
    {
        let mut numbers = vec![in alloc; 0u16; bytes.len()]?;
        widen(bytes, &mut numbers);
        Ok(MemSectors {
            numbers,
            size,
            trace: Trace::of(bytes),
        })
    }

    /// Makes a sector unreadable, until it is written. `false` where there is none of this number.
    pub fn lose(&mut self, number: u64) -> bool
        // Any sector in memory that there is can be made unreadable.
        ensures there { IsTrue result ↔ HasSector self.old.size number self.old.device }
        // A lost sector is unreadable until it is written.
        ensures lost { IsTrue result
            → self.new.device ≡ sector_lost self.old.size number self.old.device }
        ensures none { ¬ IsTrue result → self.new ≡ self.old }
        ensures size { self.new.size ≡ self.old.size }
    {
        let len = self.size.bytes();
        if number >= (self.numbers.len() / len) as u64 {
            return false;
        }
        let at = number as usize * len;
        forget(&mut self.numbers, at, len);
        self.trace.lose(at as u64, len as u64);
        true
    }
}

impl Sectors for MemSectors {
    ghost device = { λ s. s.device };

    ghost of_size = { λ s. s.size };

    fn sector_size(&self) -> SectorSize {
        self.size
    }

    fn count(&self) -> u64 {
        (self.numbers.len() / self.size.bytes()) as u64
    }

    fn read_sector(&mut self, number: u64, out: &mut [u8]) -> Result<(), SectorError> {
        let len = self.size.bytes();
        let at = number as usize * len;
        if self.numbers[at] >= LOST {
            return Err(SectorError::Unreadable);
        }
        if narrow(&self.numbers[at..at + len], out) {
            Ok(())
        } else {
            Err(SectorError::Fault)
        }
    }

    fn write_sector(&mut self, number: u64, bytes: &[u8]) -> Result<(), Fault> {
        let len = self.size.bytes();
        let at = number as usize * len;
        put(&mut self.numbers, at, bytes);
        self.trace.write(at as u64, bytes);
        Ok(())
    }

    fn flush(&mut self) -> Result<(), Fault> {
        let _ = &self.numbers;
        self.trace.sync();
        Ok(())
    }
}

// Puts these bytes at `at`.
fn put(numbers: &mut Vec<u16>, at: usize, bytes: &[u8])
    requires { at + length bytes.now ≤ length numbers.old.items }
    ensures { numbers.new.items ≡ spliced numbers.old.items at bytes.now }
{
    put_there(numbers, at, bytes);
}

fn put_there(numbers: &mut [u16], at: usize, bytes: &[u8])
    requires { at + length bytes.now ≤ length numbers.old }
    ensures { numbers.new ≡ spliced numbers.old at bytes.now }
{
    widen(bytes, &mut numbers[at..at + bytes.len()]);
}

// Makes so many bytes from `at` on unreadable.
fn forget(numbers: &mut Vec<u16>, at: usize, len: usize)
    requires { at + len ≤ length numbers.old.items }
    ensures { numbers.new.items ≡ spliced numbers.old.items at (replicate len 256) }
{
    forget_there(numbers, at, len);
}

fn forget_there(numbers: &mut [u16], at: usize, len: usize)
    requires { at + len ≤ length numbers.old }
    ensures { numbers.new ≡ spliced numbers.old at (replicate len 256) }
{
    numbers[at..at + len].fill(LOST);
}

// Copies bytes into numbers.
fn widen(bytes: &[u8], numbers: &mut [u16])
    requires { length numbers.old ≡ length bytes.now }
    ensures { numbers.new ≡ bytes.now }
{
    for i in 0..bytes.len() {
        numbers[i] = u16::from(bytes[i]);
    }
}

// Copies numbers into bytes, as long as each is one.
fn narrow(numbers: &[u16], bytes: &mut [u8]) -> bool
    requires { length bytes.old ≡ length numbers.now }
    ensures { IsTrue result → bytes.new ≡ numbers.now }
{
    for i in 0..numbers.len() {
        let number = numbers[i];
        if number >= LOST {
            return false;
        }
        bytes[i] = number as u8;
    }
    true
}
