//! The contract of a block device.
ghost use Rattle.std.specs.Prelude.{◌≡◌, ◌+◌, ◌*◌, ◌<◌, ◌≤◌, length, OnOk, OnErr, IsErrOf};
ghost use Rattle.block_disk.specs.Bytes.{part};
ghost use Rattle.block_disk.specs.Device.{Device, written, written_units, unit_ranges, synced, SameMoments};
ghost use Rattle.block_disk.specs.Since.{CountsOneMore, HasFailedSince, IsSameOrTorn, LeavesBut};
ghost use Rattle.block_disk.specs.declared.error.DiskError.TheVariants.{Fault, OutOfRange};

use crate::DiskError;

/// A block device. Places and lengths count bytes, from 0.
///
/// A crash between two syncs may leave any bytes in each range that was written since the first of them; every other
/// byte stays. A call out of range is refused as `OutOfRange`, or as `Fault` where the device fails first. A disk goes on to work after
/// either.
pub trait Disk {
    /// What the device reads, what a crash may leave now and might have left before, and how often it has failed.
    ghost device: { Self → Device };

    /// The number of bytes. No call changes it.
    fn size(&self) -> u64
        ensures { result ≡ length (device self.now).now.bytes };

    /// Reads the bytes from `at` on into `out`, whole. After `Fault` any bytes may stand in `out`.
    fn read_at(&mut self, at: u64, out: &mut [u8]) -> Result<(), DiskError>
        // A read or a write that succeeds lies within the disk.
        ensures in_range { OnOk result (at + length out.old ≤ length (device self.old).now.bytes) }
        // A read gives the bytes of the device.
        ensures ok { OnOk result (out.new ≡ part at (length out.old) (device self.old).now.bytes) }
        ensures same { OnOk result (device self.new ≡ device self.old) }
        ensures out_of_range { IsErrOf result OutOfRange
            → (length (device self.old).now.bytes < at + length out.old) × (out.new ≡ out.old)
            × (device self.new ≡ device self.old) }
        ensures fault { IsErrOf result Fault → SameMoments (device self.old) (device self.new) }
        ensures cause { IsErrOf result Fault → HasFailedSince (device self.old) (device self.new) }
        // A fault counts for one failure of the device.
        ensures counted { IsErrOf result Fault → CountsOneMore (device self.old) (device self.new) };

    /// Writes these bytes at `at`. A crash before the next sync that succeeds may leave any bytes in their range, and
    /// so may a write that answers `Fault`.
    fn write_at(&mut self, at: u64, bytes: &[u8]) -> Result<(), DiskError>
        // A read or a write that succeeds lies within the disk.
        ensures in_range { OnOk result
            (at + length bytes.now ≤ length (device self.old).now.bytes) }
        // A write that succeeds is the device's latest moment; until a sync a crash may leave any bytes in its range.
        ensures ok { OnOk result (device self.new ≡ written at bytes.now (device self.old)) }
        ensures out_of_range { IsErrOf result OutOfRange
            → (length (device self.old).now.bytes < at + length bytes.now)
            × (device self.new ≡ device self.old) }
        ensures fault { IsErrOf result Fault
            → IsSameOrTorn at (length bytes.now) (device self.old) (device self.new) }
        ensures cause { IsErrOf result Fault → HasFailedSince (device self.old) (device self.new) }
        // A fault counts for one failure of the device.
        ensures counted { IsErrOf result Fault → CountsOneMore (device self.old) (device self.new) };

    /// Writes these bytes, `count` units of 16 each, from `at` on. Each unit is a write of its own, the first one first: a crash
    /// or a fault may come in any of them, and until the next sync that succeeds a crash may leave any bytes in the range of
    /// each that was begun. A disk may make them in one go.
    fn write_units(&mut self, at: u64, bytes: &[u8], count: usize) -> Result<(), crate::Fault>
        requires some { 0 < count }
        requires whole { length bytes.now ≡ count * 16 }
        requires fits { at + length bytes.now ≤ length (device self.old).now.bytes }
        // A run of units of 16 bytes leaves the device as so many writes leave it, one after the other.
        ensures ok { OnOk result (device self.new
            ≡ written_units count at bytes.now (device self.old)) }
        // Each image that a crash leaves from the first write of a run on differs from one of before in the ranges of
        // the units alone.
        ensures any_moment { LeavesBut (unit_ranges count at) (device self.old) (device self.new) }
        // A run of units fails only where the device has failed.
        ensures cause { OnErr result (HasFailedSince (device self.old) (device self.new)) }
        // A fault counts for one failure of the device.
        ensures counted { OnErr result (CountsOneMore (device self.old) (device self.new)) }
    {
        let _size = self.size();
        for i in 0..count {
            let from = i * 16;
            match self.write_at(at + from as u64, &bytes[from..from + 16]) {
                Ok(()) => {}
                Err(_) => return Err(crate::Fault),
            }
        }
        Ok(())
    }

    /// Makes what was written durable: from then on a crash leaves what a read gives. `Fault` fixes nothing.
    fn sync(&mut self) -> Result<(), DiskError>
        // After a sync a crash leaves just what reads.
        ensures ok { OnOk result (device self.new ≡ synced (device self.old)) }
        ensures in_range { ¬ IsErrOf result OutOfRange }
        ensures fault { IsErrOf result Fault → SameMoments (device self.old) (device self.new) }
        ensures cause { IsErrOf result Fault → HasFailedSince (device self.old) (device self.new) }
        // A fault counts for one failure of the device.
        ensures counted { IsErrOf result Fault → CountsOneMore (device self.old) (device self.new) };

    /// How often the device has failed. The count stays at 2^64 - 1 once it is there.
    fn failures(&self) -> u64
        ensures { result ≡ (device self.now).failures };
}
