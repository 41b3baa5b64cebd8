//! A disk whose writes are stored whole or not at all.
ghost use Rattle.std.specs.Prelude.{◌≡◌, ◌+◌, ◌≤◌, length, OnErr, OnOk};
ghost use Rattle.block_disk.specs.Device.{written};
ghost use Rattle.block_disk.specs.Since.{CountsOneMore, HasFailedSince};
ghost use Rattle.atomic_sectors.specs.Untorn.{IsUntorn};

use block_disk::{Disk, Fault};

/// A disk of which a write that fails leaves what reads as it was. Disks whose bytes are in memory, and reach their device at a sync, are such.
pub trait UntornDisk: Disk {
    /// Writes these bytes at `at`, within the disk.
    fn write_untorn(&mut self, at: u64, bytes: &[u8]) -> Result<(), Fault>
        requires fits { at + length bytes.now ≤ length (Self.device self.old).now.bytes }
        ensures ok { OnOk result (Self.device self.new ≡ written at bytes.now (Self.device self.old)) }
        // A write that fails leaves what reads as it was.
        ensures err { OnErr result (IsUntorn at (length bytes.now) (Self.device self.old) (Self.device self.new)) }
        ensures cause { OnErr result (HasFailedSince (Self.device self.old) (Self.device self.new)) }
        ensures counted { OnErr result (CountsOneMore (Self.device self.old) (Self.device self.new)) };
}
