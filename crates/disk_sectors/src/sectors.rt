//! The contract of a device of sectors.
ghost use Rattle.std.specs.Prelude.{◌≡◌, ◌*◌, ◌^◌, ◌<◌, ◌≤◌, length, OnOk, OnErr, IsErrOf};
ghost use Rattle.block_disk.specs.Device.{Device, SameMoments, synced};
ghost use Rattle.disk_sectors.specs.Size.{bytes_in, sector};
ghost use Rattle.disk_sectors.specs.declared.error.SectorError.TheVariants.{Unreadable};
ghost use Rattle.disk_sectors.specs.declared.size.SectorSize.{SectorSize as Size};
ghost use Rattle.disk_sectors.specs.Access.{HasNoMore, HasSector, Loses, PutsSector, Tears};

use crate::error::SectorError;
use crate::size::SectorSize;
use block_disk::Fault;

/// A device of sectors, numbered from 0. Each call is one whole sector.
///
/// A crash between two flushes may leave any bytes in each sector that was written since the first of them, or leave it so
/// that it can't be read; every other sector stays. A sector that can't be read can be written. A device goes on to work
/// after a `Fault`.
pub trait Sectors {
    /// What the device reads, what a crash may leave now and might have left before. A sector that can't be read has a number
    /// past 255 in its first place, so "any number" in a sector says "any bytes, or unreadable".
    ghost device: { Self → Device };

    /// How many bytes a sector has.
    ghost of_size: { Self → Size };

    /// How many bytes a sector has. No call changes it.
    fn sector_size(&self) -> SectorSize
        ensures { result ≡ of_size self.now };

    /// The number of whole sectors. No call changes it.
    fn count(&self) -> u64
        ensures within { result * bytes_in (of_size self.now) ≤ length (device self.now).now.bytes }
        ensures whole { HasNoMore (of_size self.now) result (device self.now) }
        ensures bound { length (device self.now).now.bytes < 2 ^ 64 };

    /// Reads a sector into `out`, whole. After an error any bytes may stand in `out`.
    fn read_sector(&mut self, number: u64, out: &mut [u8]) -> Result<(), SectorError>
        requires whole { length out.old ≡ bytes_in (of_size self.old) }
        requires fits { HasSector (of_size self.old) number (device self.old) }
        ensures ok { OnOk result (out.new
            ≡ sector (of_size self.old) number (device self.old).now.bytes) }
        ensures unreadable { IsErrOf result Unreadable → Loses (of_size self.old) number (device self.old) }
        ensures same { SameMoments (device self.old) (device self.new) }
        ensures size { of_size self.new ≡ of_size self.old };

    /// Writes a sector. Before the next flush that succeeds a crash may leave any bytes in it, or leave it unreadable, and so
    /// may a write that answers `Fault`.
    fn write_sector(&mut self, number: u64, bytes: &[u8]) -> Result<(), Fault>
        requires whole { length bytes.now ≡ bytes_in (of_size self.old) }
        requires fits { HasSector (of_size self.old) number (device self.old) }
        // A sector that is written may hold any bytes after a crash, or be unreadable, until the next flush. Every
        // other sector stays.
        ensures ok { OnOk result (PutsSector device (of_size self.old) number bytes.now self.old self.new) }
        ensures fault { OnErr result (Tears device (of_size self.old) number bytes.now self.old self.new) }
        ensures size { of_size self.new ≡ of_size self.old };

    /// Makes what was written durable: from then on a crash leaves what a read gives. `Fault` fixes nothing.
    fn flush(&mut self) -> Result<(), Fault>
        // A flush that succeeds leaves nothing pending: a crash leaves each sector as it is.
        ensures ok { OnOk result (device self.new ≡ synced (device self.old)) }
        ensures fault { OnErr result (SameMoments (device self.old) (device self.new)) }
        ensures size { of_size self.new ≡ of_size self.old };
}
