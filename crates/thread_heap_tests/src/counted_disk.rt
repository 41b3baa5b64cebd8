//! A disk in memory that counts its writes and syncs.

ghost use Rattle.std.specs.Prelude.{◌≡◌};
ghost use Rattle.block_disk.specs.Memory.{device_of};

use block_disk::{Disk, DiskError, MemDisk};

/// A disk in memory that counts the calls made of it, those that fail too.
#[derive(Drop)]
pub struct CountedDisk {
    disk: MemDisk,
    /// How many writes there were, and how many syncs.
    pub counts: (u64, u64),
}

impl CountedDisk {
    /// This disk, of which no call was made.
    pub fn of(disk: MemDisk) -> CountedDisk {
        CountedDisk {
            disk,
            counts: (0, 0),
        }
    }

    /// The disk that is counted.
    pub fn memory(&self) -> &MemDisk
        ensures { result.now ≡ self.now.disk }
    {
        &self.disk
    }
}

impl Disk for CountedDisk {
    ghost device = { λ d. device_of d.disk };

    fn size(&self) -> u64 {
        self.disk.size()
    }

    fn read_at(&mut self, at: u64, out: &mut [u8]) -> Result<(), DiskError> {
        self.disk.read_at(at, out)
    }

    fn write_at(&mut self, at: u64, bytes: &[u8]) -> Result<(), DiskError> {
        self.counts.0 = self.counts.0.saturating_add(1);
        self.disk.write_at(at, bytes)
    }

    fn sync(&mut self) -> Result<(), DiskError> {
        self.counts.1 = self.counts.1.saturating_add(1);
        self.disk.sync()
    }

    fn failures(&self) -> u64 {
        self.disk.failures()
    }
}
