//! The sectors of a disk.
ghost use Rattle.std.specs.Prelude.{◌≡◌};

use crate::error::SectorError;
use crate::sectors::Sectors;
use crate::size::SectorSize;
use block_disk::{Disk, Fault, read_within};

/// The sectors of a disk, whose calls are whole sectors then. A disk loses no more than the sectors that are written: so it
/// is a device of sectors too, and what holds of each such device holds of it. Its contract doesn't say that a sector can't
/// be read: a read that fails is a `Fault`.
#[derive(Drop)]
pub struct SectorsOf<D: Disk + Drop> {
    disk: D,
    size: SectorSize,
}

impl<D: Disk + Drop> SectorsOf<D> {
    /// The sectors of this disk. Bytes behind the last whole sector are never touched.
    pub fn new(disk: D, size: SectorSize) -> SectorsOf<D>
        // The sectors of any disk are a device of sectors, over that disk.
        ensures disk { result.disk ≡ disk }
        ensures size { result.size ≡ size }
    {
        SectorsOf { disk, size }
    }

    /// The disk whose sectors they are.
    pub fn disk(&self) -> &D
        ensures { result.now ≡ self.now.disk }
    {
        &self.disk
    }
}

impl<D: Disk + Drop> Sectors for SectorsOf<D> {
    ghost device = { λ s. D.device s.disk };

    ghost of_size = { λ s. s.size };

    fn sector_size(&self) -> SectorSize {
        self.size
    }

    fn count(&self) -> u64 {
        self.disk.size() / self.size.bytes() as u64
    }

    fn read_sector(&mut self, number: u64, out: &mut [u8]) -> Result<(), SectorError> {
        let _size = self.disk.size();
        match read_within(&mut self.disk, number * self.size.bytes() as u64, out) {
            Ok(()) => Ok(()),
            Err(_) => Err(SectorError::Fault),
        }
    }

    fn write_sector(&mut self, number: u64, bytes: &[u8]) -> Result<(), Fault> {
        let _size = self.disk.size();
        match self.disk.write_at(number * self.size.bytes() as u64, bytes) {
            Ok(()) => Ok(()),
            Err(_) => Err(Fault),
        }
    }

    fn flush(&mut self) -> Result<(), Fault> {
        match self.disk.sync() {
            Ok(()) => Ok(()),
            Err(_) => Err(Fault),
        }
    }
}
