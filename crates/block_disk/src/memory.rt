//! A disk in memory.
ghost use Rattle.std.specs.Prelude.{◌≡◌, ◌+◌, ◌<◌, ◌≤◌, ◌↔◌, IsTrue, length, replicate, OnOk, OnErr, IfOk, IfSome, IsSome, IsErrOf, Some, if◌then◌else◌};
ghost use Rattle.block_disk.specs.Bytes.{part, spliced};
ghost use Rattle.block_disk.specs.Calls.{stops_of};
ghost use Rattle.block_disk.specs.Crash.{crash_bytes, done_at, LeftSinceStop};
ghost use Rattle.block_disk.specs.Device.{Image, written, synced, SameMoments};
ghost use Rattle.block_disk.specs.Memory.{Wrote, Synced, fresh, bytes_after, moment_after, device_of, IsDue, next_failure, called, failed, stopped, FailsWrite, FailsSync};
ghost use Rattle.block_disk.specs.Since.{CountsOneMore, HasFailedSince, IsSameOrTorn};
ghost use Rattle.block_disk.specs.declared.error.DiskError.TheVariants.{Fault, OutOfRange};

use crate::call::{Call, keep, keep_failed, keep_write};
use crate::crash::{Fill, image_at};
use crate::error::fail;
use crate::place::{copy_out, lies_within, put};
use crate::{Disk, DiskError};
use std::alloc::{AllocError, Global};
use std::marker::Model;

/// A disk in memory, which shows each crash that might have come since it was made.
///
/// It keeps its first bytes and each write and sync, so its memory grows with the bytes that are written. Where there is
/// no memory for one more call, that call answers `Fault`, has done nothing, and is no stop. Room for a call that is
/// chosen to fail is kept ready: only right behind another stop that failed may there be none, and then the call after it
/// is chosen.
#[derive(Drop)]
pub struct MemDisk {
    alloc: Global,
    first: Vec<u8>,
    calls: Vec<Call>,
    bytes: Vec<u8>,
    failures: u64,
    fails_in: Option<u64>,
}

impl Model for MemDisk {
    ghost use Rattle.block_disk.specs.Memory.{Memory};
    ghost use Rattle.std.specs.Prelude.{vec_len, vec_capacity};
    ghost use Rattle.block_disk.specs.Calls.{stops_of, IsKept, HasSpare};

    ghost Value = { Memory };

    ghost view = { λ d. record { first = d.first.items; stops = stops_of d.calls.items; failures = d.failures; fails_in = d.fails_in } };

    ghost invariant = { λ d. IsKept d.first.items d.bytes.items d.calls.items × HasSpare (stops_of d.calls.items) (vec_len d.calls) (vec_capacity d.calls) };
}

impl MemDisk {
    /// A disk of `size` zero bytes.
    pub fn new(alloc: Global, size: u64) -> Result<MemDisk, AllocError>
        ensures { IfOk result (λ disk. disk ≡ fresh (replicate size 0)) }
    {
        MemDisk::holding(alloc, vec![in alloc; 0u8; size as usize]?)
    }

    /// A disk that holds these bytes.
    pub fn from_bytes(alloc: Global, bytes: &[u8]) -> Result<MemDisk, AllocError>
        ensures { IfOk result (λ disk. disk ≡ fresh bytes.now) }
    {
        MemDisk::holding(alloc, bytes.to_vec(alloc)?)
    }

    // A disk that holds these bytes.
    fn holding(alloc: Global, first: Vec<u8>) -> Result<MemDisk, AllocError>
        ensures { IfOk result (λ disk. disk ≡ fresh first.items) }
    {
        let bytes = first.to_vec(alloc)?;
        Ok(MemDisk {
            alloc,
            first,
            calls: Vec::with_capacity(alloc, 1)?,
            bytes,
            failures: 0,
            fails_in: None,
        })
    }

    /// The bytes as they read.
    pub fn bytes(&self) -> &[u8]
        ensures { result.now ≡ bytes_after self.now.first self.now.stops }
    {
        &self.bytes
    }

    /// How many writes and syncs there were since the disk was made. One that failed counts, one out of range doesn't.
    pub fn stops(&self) -> u64
        ensures { result ≡ length self.now.stops }
    {
        self.calls.len() as u64
    }

    /// The disk that a crash leaves with stops 1 to `k - 1` ended and stop `k` begun; with `k` one more than there were
    /// stops, a crash now. `None` for any other `k`. Nothing is pending on the disk that it gives.
    pub fn crash_image(&self, k: u64, fill: Fill) -> Result<Option<MemDisk>, AllocError>
        ensures there { IfOk result (λ found. IsSome found
            ↔ ((1 ≤ k) × (k ≤ length self.now.stops + 1))) }
        // The image of a crash is exactly the documented bytes, with any write or sync begun.
        ensures image { IfOk result (λ found. IfSome found
            (λ disk. disk ≡ fresh (crash_bytes fill self.now.first (done_at k self.now.stops)))) }
        // The image of a crash is one that the trait `Disk` allows then.
        ensures possible { IfOk result
            (λ found. IfSome found
            (λ disk. Image (moment_after self.now.first (done_at k self.now.stops)) disk.first)) }
        // The image of a crash is one of those that a crash might have left since that stop.
        ensures any_moment { IfOk result
            (λ found. IfSome found (λ disk. LeftSinceStop k self.now disk.first)) }
    {
        if k == 0 || k - 1 > self.stops() {
            return Ok(None);
        }
        let image = image_at(self.alloc, &self.first, &self.calls, (k - 1) as usize, fill)?;
        Ok(Some(MemDisk::holding(self.alloc, image)?))
    }

    /// Makes the `k`-th call from now on answer `Fault`, once, in place of any call chosen before. Reads, writes and
    /// syncs count, and so does one out of range. A write within the disk and a sync that fail so are stops. Right behind
    /// another stop that failed, one for which there is no memory fails too, and leaves the choice to the call after it.
    pub fn fail_call(&mut self, k: u64)
        requires { 1 ≤ k }
        ensures { self.new ≡ record self.old { fails_in = Some k } }
    {
        self.fails_in = Some(k);
    }
}

impl Disk for MemDisk {
    ghost device = { device_of };

    fn size(&self) -> u64 {
        self.bytes.len() as u64
    }

    /// Returns `Fault` just where this call was chosen to fail, and leaves `out` as it was then.
    fn read_at(&mut self, at: u64, out: &mut [u8]) -> Result<(), DiskError>
        ensures in_range { OnOk result
            (at + length out.old ≤ length (device_of self.old).now.bytes) }
        ensures ok { OnOk result (out.new
            ≡ part at (length out.old) (device_of self.old).now.bytes) }
        ensures same { OnOk result (device_of self.new ≡ device_of self.old) }
        ensures out_of_range { IsErrOf result OutOfRange
            → (length (device_of self.old).now.bytes < at + length out.old) × (out.new ≡ out.old)
            × (device_of self.new ≡ device_of self.old) }
        ensures fault { IsErrOf result Fault
            → SameMoments (device_of self.old) (device_of self.new) }
        ensures cause { IsErrOf result Fault
            → HasFailedSince (device_of self.old) (device_of self.new) }
        ensures counted { IsErrOf result Fault
            → CountsOneMore (device_of self.old) (device_of self.new) }
        ensures due { IsErrOf result Fault ↔ IsDue self.old }
        ensures called { ¬ IsErrOf result Fault → self.new ≡ called self.old }
        ensures failed { IsErrOf result Fault → self.new ≡ failed self.old }
        ensures err { OnErr result (out.new ≡ out.old) }
    {
        if is_due(&mut self.fails_in) {
            return Err(fail(&mut self.failures));
        }
        if !lies_within(at, out.len(), self.bytes.len()) {
            return Err(DiskError::OutOfRange);
        }
        copy_out(&self.bytes, at, out);
        Ok(())
    }

    /// Returns `Fault` where this call was chosen to fail, and where it lies within the disk and can't be kept. Nothing
    /// is stored then; if the call was chosen to fail and lies within the disk, it is a stop, or, right behind another one
    /// that failed, the call after it may be chosen.
    fn write_at(&mut self, at: u64, bytes: &[u8]) -> Result<(), DiskError>
        ensures in_range { OnOk result
            (at + length bytes.now ≤ length (device_of self.old).now.bytes) }
        ensures ok { OnOk result (device_of self.new ≡ written at bytes.now (device_of self.old)) }
        ensures out_of_range { IsErrOf result OutOfRange
            → (length (device_of self.old).now.bytes < at + length bytes.now)
            × (device_of self.new ≡ device_of self.old) }
        ensures fault { IsErrOf result Fault
            → IsSameOrTorn at (length bytes.now) (device_of self.old) (device_of self.new) }
        ensures cause { IsErrOf result Fault
            → HasFailedSince (device_of self.old) (device_of self.new) }
        ensures counted { IsErrOf result Fault
            → CountsOneMore (device_of self.old) (device_of self.new) }
        ensures due { IsDue self.old → IsErrOf result Fault }
        ensures beyond { ¬ IsDue self.old
            → length (device_of self.old).now.bytes < at + length bytes.now
            → IsErrOf result OutOfRange }
        ensures called { IsErrOf result OutOfRange → self.new ≡ called self.old }
        ensures stopped { OnOk result (self.new ≡ stopped (Wrote at bytes.now) (called self.old)) }
        ensures failed { IsErrOf result Fault → FailsWrite at (length bytes.now) self.old self.new }
    {
        let due = is_due(&mut self.fails_in);
        if !lies_within(at, bytes.len(), self.bytes.len()) {
            if due {
                return Err(fail(&mut self.failures));
            }
            return Err(DiskError::OutOfRange);
        }
        if due {
            let len = bytes.len() as u64;
            let kept = keep_failed(&mut self.calls, Call::FailedWrite { at, len });
            put_off_unless(kept, &mut self.fails_in);
            return Err(fail(&mut self.failures));
        }
        if !keep_write(self.alloc, &mut self.calls, at, bytes) {
            return Err(fail(&mut self.failures));
        }
        put(&mut self.bytes, at, bytes);
        Ok(())
    }

    /// Returns `Fault` where this call was chosen to fail, and where it can't be kept; in the first case it is a stop, or,
    /// right behind another one that failed, the call after it may be chosen.
    fn sync(&mut self) -> Result<(), DiskError>
        ensures ok { OnOk result (device_of self.new ≡ synced (device_of self.old)) }
        ensures in_range { ¬ IsErrOf result OutOfRange }
        ensures fault { IsErrOf result Fault
            → SameMoments (device_of self.old) (device_of self.new) }
        ensures cause { IsErrOf result Fault
            → HasFailedSince (device_of self.old) (device_of self.new) }
        ensures counted { IsErrOf result Fault
            → CountsOneMore (device_of self.old) (device_of self.new) }
        ensures due { IsDue self.old → IsErrOf result Fault }
        ensures stopped { OnOk result (self.new ≡ stopped Synced (called self.old)) }
        ensures failed { IsErrOf result Fault → FailsSync self.old self.new }
    {
        if is_due(&mut self.fails_in) {
            let kept = keep_failed(&mut self.calls, Call::FailedSync);
            put_off_unless(kept, &mut self.fails_in);
            return Err(fail(&mut self.failures));
        }
        if !keep(&mut self.calls, Call::Sync) {
            return Err(fail(&mut self.failures));
        }
        Ok(())
    }

    fn failures(&self) -> u64 {
        self.failures
    }
}

// Whether this call is the one to fail; it counts.
fn is_due(fails_in: &mut Option<u64>) -> bool
    ensures due { IsTrue result ↔ (fails_in.old ≡ Some 1) }
    ensures next { fails_in.new ≡ next_failure fails_in.old }
{
    let due = *fails_in == Some(1);
    *fails_in = match *fails_in {
        Some(k) if k > 1 => Some(k - 1),
        _ => None,
    };
    due
}

// The next call is the one to fail, unless the one that was chosen was kept.
fn put_off_unless(kept: bool, fails_in: &mut Option<u64>)
    ensures { fails_in.new ≡ (if kept then fails_in.old else Some 1) }
{
    if !kept {
        *fails_in = Some(1);
    }
}
