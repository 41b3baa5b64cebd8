//! Calls of a device of sectors, by what a crash at any moment of them leaves.
ghost use Rattle.std.specs.Prelude.{◌≡◌, [], length, IsErrOf, OnErr, OnOk};
ghost use Rattle.block_disk.specs.Device.{SameMoments, synced};
ghost use Rattle.block_disk.specs.Since.{LeavesBut};
ghost use Rattle.disk_sectors.specs.Size.{bytes_in, sector};
ghost use Rattle.disk_sectors.specs.declared.error.SectorError.TheVariants.{Unreadable};
ghost use Rattle.disk_sectors.specs.Access.{HasSector, Loses, PutsSector};
ghost use Rattle.disk_sectors.specs.Frames.{OnlyReads, WritesSector};

use crate::error::SectorError;
use crate::sectors::Sectors;
use crate::size::SectorSize;
use block_disk::Fault;

/// Writes a sector. Whatever it answers, a crash may leave any bytes in it, and no others.
pub(crate) fn put_sector<S: Sectors>(
    sectors: &mut S,
    size: SectorSize,
    number: u64,
    bytes: &[u8],
) -> Result<(), Fault>
    requires size { S.of_size sectors.old ≡ size }
    requires whole { length bytes.now ≡ bytes_in size }
    requires fits { HasSector size number (S.device sectors.old) }
    ensures ok { OnOk result (PutsSector S.device size number bytes.now sectors.old sectors.new) }
    ensures writes_only { WritesSector S.device S.of_size size number sectors.old sectors.new }
{
    match sectors.write_sector(number, bytes) {
        Ok(()) => Ok(()),
        Err(_) => Err(Fault),
    }
}

/// Makes what was written durable. A fault fixes nothing.
pub(crate) fn settle<S: Sectors>(sectors: &mut S) -> Result<(), Fault>
    ensures ok { OnOk result (S.device sectors.new ≡ synced (S.device sectors.old)) }
    ensures err { OnErr result (SameMoments (S.device sectors.old) (S.device sectors.new)) }
    ensures same { (S.device sectors.new).now.bytes ≡ (S.device sectors.old).now.bytes }
    ensures any_moment { LeavesBut [] (S.device sectors.old) (S.device sectors.new) }
    ensures size { S.of_size sectors.new ≡ S.of_size sectors.old }
{
    match sectors.flush() {
        Ok(()) => Ok(()),
        Err(_) => Err(Fault),
    }
}

/// Reads a sector into `out`, whole.
pub(crate) fn get_sector<S: Sectors>(
    sectors: &mut S,
    size: SectorSize,
    number: u64,
    out: &mut [u8],
) -> Result<(), SectorError>
    requires size { S.of_size sectors.old ≡ size }
    requires whole { length out.old ≡ bytes_in size }
    requires fits { HasSector size number (S.device sectors.old) }
    ensures ok { OnOk result (out.new ≡ sector size number (S.device sectors.old).now.bytes) }
    ensures unreadable { IsErrOf result Unreadable → Loses size number (S.device sectors.old) }
    ensures reads_only { OnlyReads S.device S.of_size size sectors.old sectors.new }
{
    sectors.read_sector(number, out)
}
