//! Calls of a disk that lie within it, so that a fault is the one thing that can go wrong.
//!
//! A crash at any moment of them leaves an image that was possible before, but for the bytes in the range. After a
//! [`Fault`] the device is as it was, but for what each call says.
ghost use Rattle.std.specs.Prelude.{◌≡◌, ℕ, List, ◌+◌, ◌≤◌, [], ◌∷◌, length, OnOk, OnErr};
ghost use Rattle.block_disk.specs.Bytes.{part, spliced};
ghost use Rattle.block_disk.specs.Device.{Image, range_of, written, synced, SameMoments};
ghost use Rattle.block_disk.specs.Images.{Always, ImageBut};
ghost use Rattle.block_disk.specs.Since.{AlwaysBut, HasFailedSince, LeavesBut, SameSize};

use crate::{Disk, Fault};

/// Reads the bytes from `at` on into `out`, whole. After a fault any bytes may stand in `out`.
pub fn read_within<D: Disk>(disk: &mut D, at: u64, out: &mut [u8]) -> Result<(), Fault>
    requires fits { at + length out.old ≤ length (D.device disk.old).now.bytes }
    // A read within the disk gives the bytes of the device.
    ensures ok { OnOk result (out.new ≡ part at (length out.old) (D.device disk.old).now.bytes) }
    ensures untouched { OnOk result (D.device disk.new ≡ D.device disk.old) }
    ensures same { SameMoments (D.device disk.old) (D.device disk.new) }
    ensures later { (D.device disk.old).failures ≤ (D.device disk.new).failures }
    // A call within the disk fails only where the device has failed.
    ensures cause { OnErr result (HasFailedSince (D.device disk.old) (D.device disk.new)) }
{
    match disk.read_at(at, out) {
        Ok(()) => Ok(()),
        Err(_) => Err(Fault),
    }
}

/// Writes these bytes at `at`. Until the next sync that succeeds, a crash may leave any bytes in their range.
pub fn write_within<D: Disk>(disk: &mut D, at: u64, bytes: &[u8]) -> Result<(), Fault>
    requires fits { at + length bytes.now ≤ length (D.device disk.old).now.bytes }
    ensures ok { OnOk result (D.device disk.new ≡ written at bytes.now (D.device disk.old)) }
    ensures size { OnOk result (SameSize (D.device disk.old) (D.device disk.new)) }
    // A write within the disk changes only its range, in each image that a crash may leave.
    ensures crash { AlwaysBut (range_of at bytes.now ∷ []) (D.device disk.old) (D.device disk.new) }
    // Each image that differs in the range of a write alone may be left by a crash after it.
    ensures possible { OnOk result ((image : List ℕ)
        → ImageBut (D.device disk.old) (range_of at bytes.now ∷ []) image
        → Image (D.device disk.new).now image) }
    ensures any_moment { LeavesBut (range_of at bytes.now ∷ []) (D.device disk.old)
        (D.device disk.new) }
    ensures later { (D.device disk.old).failures ≤ (D.device disk.new).failures }
    // A call within the disk fails only where the device has failed.
    ensures cause { OnErr result (HasFailedSince (D.device disk.old) (D.device disk.new)) }
{
    match disk.write_at(at, bytes) {
        Ok(()) => Ok(()),
        Err(_) => Err(Fault),
    }
}

/// Makes what was written durable. A fault fixes nothing.
pub fn make_durable<D: Disk>(disk: &mut D) -> Result<(), Fault>
    // A sync that succeeds leaves nothing pending.
    ensures ok { OnOk result (D.device disk.new ≡ synced (D.device disk.old)) }
    ensures err { OnErr result (SameMoments (D.device disk.old) (D.device disk.new)) }
    ensures durable { OnOk result
        (Always (D.device disk.new) (λ image. image ≡ (D.device disk.old).now.bytes)) }
    ensures crash { AlwaysBut [] (D.device disk.old) (D.device disk.new) }
    ensures any_moment { LeavesBut [] (D.device disk.old) (D.device disk.new) }
    ensures later { (D.device disk.old).failures ≤ (D.device disk.new).failures }
    // A call within the disk fails only where the device has failed.
    ensures cause { OnErr result (HasFailedSince (D.device disk.old) (D.device disk.new)) }
{
    match disk.sync() {
        Ok(()) => Ok(()),
        Err(_) => Err(Fault),
    }
}

/// Writes these bytes at `at` and makes all that was written durable. After a fault they may be written or not, and
/// durable or not.
pub fn write_through<D: Disk>(disk: &mut D, at: u64, bytes: &[u8]) -> Result<(), Fault>
    requires fits { at + length bytes.now ≤ length (D.device disk.old).now.bytes }
    ensures ok { OnOk result (D.device disk.new
        ≡ synced (written at bytes.now (D.device disk.old))) }
    ensures size { OnOk result (SameSize (D.device disk.old) (D.device disk.new)) }
    ensures durable { OnOk result
        (Always (D.device disk.new)
        (λ image. image ≡ spliced (D.device disk.old).now.bytes at bytes.now)) }
    // A write with its sync changes only its range, in each image that a crash may leave.
    ensures crash { AlwaysBut (range_of at bytes.now ∷ []) (D.device disk.old) (D.device disk.new) }
    ensures any_moment { LeavesBut (range_of at bytes.now ∷ []) (D.device disk.old)
        (D.device disk.new) }
    ensures later { (D.device disk.old).failures ≤ (D.device disk.new).failures }
    // A call within the disk fails only where the device has failed.
    ensures cause { OnErr result (HasFailedSince (D.device disk.old) (D.device disk.new)) }
{
    write_within(disk, at, bytes)?;
    make_durable(disk)?;
    Ok(())
}
