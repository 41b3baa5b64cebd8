//! A disk in memory that hands its calls over.
ghost use Rattle.std.specs.Prelude.{◌≡◌, ◌+◌, ◌*◌, ◌^◌, ◌<◌, ◌≤◌, [], ◌∷◌, ◌++◌, length, replicate, OnOk, OnErr, IfOk, IsErrOf, if◌then◌else◌};
ghost use Rattle.block_disk.specs.Bytes.{part};
ghost use Rattle.block_disk.specs.Device.{synced};
ghost use Rattle.block_disk.specs.Memory.{Synced, Wrote, failed, fresh, stopped};
ghost use Rattle.block_disk.specs.declared.error.DiskError.TheVariants.{Fault, OutOfRange};
ghost use Rattle.disk_deferred.specs.Deferred.{FailsAmong, KeepsCall, KeepsUnits, KeepsWrite, LastTakes, deferred_device, stops_in, units_on};
ghost use Rattle.disk_deferred.specs.Host.{IsHostOf};
ghost use Rattle.disk_deferred.specs.Joined.{joined};
ghost use Rattle.disk_deferred.specs.declared.call.DeviceCall.TheVariants as calls;
ghost use Rattle.disk_deferred.specs.declared.disk.TheConstants.{SYNCS};
ghost use Rattle.disk_deferred.specs.declared.call.Handed.TheVariants as handed;
ghost use Rattle.rtrb.specs.Ring.{SameProducer, sent};
ghost use Rattle.disk_deferred.specs.DiskCalls.{CountsFailure, FailsSince, HasSameMoments, HasWritten, HasWrittenUnits, IsBeyond, IsSameOrTornBy, LeavesButUnits, LiesWithin, RefusesRead, RefusesWrite};

use crate::call::{DeviceCall, Handed, MOST_BYTES};
use crate::handing::Handing;
use crate::host::HostCalls;
use block_disk::{Disk, DiskError, Trace, copy_out, fail, lies_within, put};
use rtrb::{Producer, RingBuffer};
use std::alloc::{AllocError, Global};
use std::marker::Model;

/// How many syncs may be handed over and not yet be taken by the host.
pub const SYNCS: usize = 64;

/// A disk in memory, whose calls the host makes on a device of its own.
///
/// A write that goes on where the one before it ended, with no sync between them, becomes one call with it, of
/// [`MOST_BYTES`](crate::MOST_BYTES) at most. The disk takes its bytes and the calls that the host hasn't taken yet, and no more, however
/// long it runs. `Fault` is want of memory for one more call, a write of more bytes than a call may have, or, at a sync, [`SYNCS`] syncs that the host hasn't taken. A write
/// or a sync has done nothing then; a [`write_units`](Disk::write_units) has written and kept the units before those of that call. The
/// disk goes on to work.
///
/// Contracts see it as the memory of a [`MemDisk`](block_disk::MemDisk) that keeps all stops, each write by itself.
#[derive(Drop)]
pub struct DeferredDisk {
    alloc: Global,
    pub(crate) bytes: Vec<u8>,
    // The calls since the last sync.
    unsent: Vec<DeviceCall>,
    pub(crate) ring: Producer<Handed, Global, Handing>,
    failures: u64,
    trace: Trace,
}

impl Model for DeferredDisk {
    ghost use Rattle.disk_deferred.specs.Deferred.{Deferred, IsDeferring, memory_of};
    ghost use Rattle.rtrb.specs.Ring.{sent};

    ghost Value = { Deferred };

    ghost view = { λ d. record { memory = memory_of (sent d.ring) d.trace.past.stops d.failures; ring = d.ring } };

    ghost invariant = { λ d. IsDeferring (sent d.ring) d.unsent.items d.bytes.items d.trace.past.stops };
}

impl DeferredDisk {
    /// A disk of `size` zero bytes, and the calls that the host of a device of such bytes has to make.
    pub fn new(alloc: Global, size: u64) -> Result<(DeferredDisk, HostCalls), AllocError>
        ensures disk { IfOk result (λ r. r.0.memory ≡ fresh (replicate size 0)) }
        // The ring has room for `SYNCS` batches.
        ensures room { IfOk result (λ r. r.0.ring.capacity ≡ SYNCS) }
        // A new disk and its host's calls are the ends of one ring, and no call was made or left.
        ensures host { IfOk result (λ r. (r.1.made ≡ []) × (r.1.left ≡ []) × IsHostOf r.0 r.1) }
    {
        DeferredDisk::holding(alloc, vec![in alloc; 0u8; size as usize]?)
    }

    /// The disk of these bytes, which the host's device has, durably, and the calls that the host has to make from then on. They are copied
    /// once.
    pub fn from_bytes(alloc: Global, bytes: &[u8]) -> Result<(DeferredDisk, HostCalls), AllocError>
        ensures disk { IfOk result (λ r. r.0.memory ≡ fresh bytes.now) }
        // The ring has room for `SYNCS` batches.
        ensures room { IfOk result (λ r. r.0.ring.capacity ≡ SYNCS) }
        // A new disk and its host's calls are the ends of one ring, and no call was made or left.
        ensures host { IfOk result (λ r. (r.1.made ≡ []) × (r.1.left ≡ []) × IsHostOf r.0 r.1) }
    {
        DeferredDisk::holding(alloc, bytes.to_vec(alloc)?)
    }

    // The disk of these bytes.
    fn holding(alloc: Global, bytes: Vec<u8>) -> Result<(DeferredDisk, HostCalls), AllocError>
        ensures disk { IfOk result (λ r. r.0.memory ≡ fresh bytes.items) }
        ensures room { IfOk result (λ r. r.0.ring.capacity ≡ SYNCS) }
        ensures host { IfOk result (λ r. (r.1.made ≡ []) × (r.1.left ≡ []) × IsHostOf r.0 r.1) }
    {
        let (mut ring, mut other) = RingBuffer::with_protocol::<Global, Handing>(alloc, SYNCS)?;
        ring.push_reserved(Handed::Begun(Trace::of(&bytes)));
        other.slots_beside(&mut ring);
        let _ = other.pop_known();
        let disk = DeferredDisk {
            alloc,
            bytes,
            unsent: Vec::new(alloc),
            ring,
            failures: 0,
            trace: Trace::of(&[]),
        };
        Ok((disk, HostCalls::of(alloc, other)))
    }
}

impl Disk for DeferredDisk {
    ghost device = { deferred_device };

    fn size(&self) -> u64 {
        self.bytes.len() as u64
    }

    /// Reads the memory, and never answers `Fault`.
    fn read_at(&mut self, at: u64, out: &mut [u8]) -> Result<(), DiskError>
        ensures in_range { OnOk result (LiesWithin at out.old self.old) }
        ensures ok { OnOk result (out.new
            ≡ part at (length out.old) (deferred_device self.old).now.bytes) }
        ensures same { OnOk result (deferred_device self.new ≡ deferred_device self.old) }
        ensures out_of_range { RefusesRead at out.old out.new self.old self.new result }
        ensures fault { IsErrOf result Fault → HasSameMoments self.old self.new }
        ensures cause { IsErrOf result Fault → FailsSince self.old self.new }
        ensures counted { IsErrOf result Fault → CountsFailure self.old self.new }
        ensures no_fault { ¬ IsErrOf result Fault }
        ensures untouched { self.new ≡ self.old }
    {
        if !lies_within(at, out.len(), self.bytes.len()) {
            return Err(DiskError::OutOfRange);
        }
        copy_out(&self.bytes, at, out);
        Ok(())
    }

    /// `Fault` is want of memory for the call, or one of more than [`MOST_BYTES`](crate::MOST_BYTES); nothing is written then.
    fn write_at(&mut self, at: u64, bytes: &[u8]) -> Result<(), DiskError>
        ensures in_range { OnOk result (LiesWithin at bytes.now self.old) }
        ensures ok { OnOk result (HasWritten at bytes.now self.old self.new) }
        ensures out_of_range { RefusesWrite at bytes.now self.old self.new result }
        ensures fault { IsErrOf result Fault → IsSameOrTornBy at bytes.now self.old self.new }
        ensures cause { IsErrOf result Fault → FailsSince self.old self.new }
        ensures counted { IsErrOf result Fault → CountsFailure self.old self.new }
        ensures beyond { IsBeyond at bytes.now self.old → IsErrOf result OutOfRange }
        // A call that succeeds is one more write or sync of the memory that the disk keeps.
        ensures stopped { OnOk result
            (self.new.memory ≡ stopped (Wrote at bytes.now) self.old.memory) }
        // A call that is refused with a fault adds no write and no sync.
        ensures failed { IsErrOf result Fault → self.new.memory ≡ failed self.old.memory }
        ensures untouched { IsErrOf result OutOfRange → self.new ≡ self.old }
        ensures ring { SameProducer self.old.ring self.new.ring }
    {
        if !lies_within(at, bytes.len(), self.bytes.len()) {
            return Err(DiskError::OutOfRange);
        }
        let is_long = bytes.len() > MOST_BYTES;
        if is_long {
            return Err(fail(&mut self.failures));
        }
        if !keep_write(self.alloc, &mut self.unsent, at, bytes) {
            return Err(fail(&mut self.failures));
        }
        put(&mut self.bytes, at, bytes);
        self.trace.write(at, bytes);
        Ok(())
    }

    /// Writes the memory at once, and keeps the units as calls of [`MOST_BYTES`](crate::MOST_BYTES) at most. `Fault` is want of memory
    /// for one of these; the units after it aren't written then.
    fn write_units(&mut self, at: u64, units: &[u8], count: usize) -> Result<(), block_disk::Fault>
        requires some { 0 < count }
        requires whole { length units.now ≡ count * 16 }
        requires fits { LiesWithin at units.now self.old }
        // A run of units leaves the device as so many writes leave it, one after the other.
        ensures ok { OnOk result (HasWrittenUnits count at units.now self.old self.new) }
        // Each image that a crash leaves from the first write of a run on differs from one of before in the ranges of
        // the units alone.
        ensures any_moment { LeavesButUnits count at self.old self.new }
        ensures cause { OnErr result (FailsSince self.old self.new) }
        // A run of units is told to the host as so many writes.
        ensures stopped { OnOk result
            (self.new.memory ≡ units_on count at units.now self.old.memory) }
        // A run of units that fails has made the first so many of its writes, and nothing else.
        ensures failed { OnErr result
            (FailsAmong count at units.now self.old.memory self.new.memory) }
        ensures counted { OnErr result (CountsFailure self.old self.new) }
        ensures ring { SameProducer self.old.ring self.new.ring }
    {
        let _size = self.bytes.len();
        let kept = keep_units(self.alloc, &mut self.unsent, at, units, count);
        let done = &units[..kept * 16];
        put(&mut self.bytes, at, done);
        self.trace.write_units(at, done, kept);
        if kept < count {
            fail(&mut self.failures);
            return Err(block_disk::Fault);
        }
        Ok(())
    }

    /// Hands over the calls since the last sync, and the sync. `Fault` is want of memory, or of room in the ring; what was
    /// written then waits for the next sync.
    fn sync(&mut self) -> Result<(), DiskError>
        ensures ok { OnOk result (deferred_device self.new ≡ synced (deferred_device self.old)) }
        ensures in_range { ¬ IsErrOf result OutOfRange }
        ensures fault { IsErrOf result Fault → HasSameMoments self.old self.new }
        ensures cause { IsErrOf result Fault → FailsSince self.old self.new }
        ensures counted { IsErrOf result Fault → CountsFailure self.old self.new }
        // A call that succeeds is one more write or sync of the memory that the disk keeps.
        ensures stopped { OnOk result (self.new.memory ≡ stopped Synced self.old.memory) }
        // A call that is refused with a fault adds no write and no sync.
        ensures failed { IsErrOf result Fault → self.new.memory ≡ failed self.old.memory }
        // At each sync that succeeds, all that the disk was told so far is handed over. Writes that go on where the one
        // before ended are one call, up to `MOST_BYTES`, and not over a sync.
        ensures handed { OnOk result
            (joined self.new.memory.stops ≡ stops_in (sent self.new.ring)) }
        ensures ring { SameProducer self.old.ring self.new.ring }
    {
        if self.ring.slots() == 0 || !keep(&mut self.unsent, DeviceCall::Sync) {
            return Err(fail(&mut self.failures));
        }
        let batch = std::mem::replace(&mut self.unsent, Vec::new(self.alloc));
        self.ring.push_reserved(Handed::Calls(batch));
        self.trace.sync();
        Ok(())
    }

    fn failures(&self) -> u64 {
        self.failures
    }
}

// Keeps the call, if there is memory for it.
fn keep(calls: &mut Vec<DeviceCall>, call: DeviceCall) -> bool
    ensures { calls.new.items ≡ (if result then calls.old.items ++ call ∷ [] else calls.old.items) }
{
    match calls.reserve(1) {
        Ok(()) => {
            calls.push_reserved(call);
            true
        }
        Err(_) => false,
    }
}

// Keeps a write of these bytes, if there is memory for it: as one with the last call, where it goes on with that.
fn keep_write(alloc: Global, calls: &mut Vec<DeviceCall>, at: u64, bytes: &[u8]) -> bool
    ensures { KeepsWrite at bytes.now calls.old.items calls.new.items result }
{
    let count = calls.len();
    if count > 0 && calls[count - 1].takes(at, bytes.len()) {
        return calls[count - 1].lengthen(bytes);
    }
    keep_new_write(alloc, calls, at, bytes)
}

// Keeps these units, each a write of its own, as long as there is memory for them. How many it keeps.
fn keep_units(
    alloc: Global,
    calls: &mut Vec<DeviceCall>,
    at: u64,
    units: &[u8],
    count: usize,
) -> usize
    requires whole { length units.now ≡ count * 16 }
    requires fits { at + length units.now < 2 ^ 64 }
    ensures few { result ≤ count }
    ensures kept { KeepsUnits result at units.now calls.old.items calls.new.items }
{
    let mut done = 0;
    while done < count {
        let from = done * 16;
        let kept = keep_run(alloc, calls, at + from as u64, &units[from..], count - done);
        if kept == 0 {
            return done;
        }
        done += kept;
    }
    done
}

// Keeps the first of these units, which are some, if there is memory for them: as many as the last call takes, or one of their own. How
// many it keeps.
fn keep_run(
    alloc: Global,
    calls: &mut Vec<DeviceCall>,
    at: u64,
    units: &[u8],
    count: usize,
) -> usize
    requires some { 0 < count }
    requires whole { length units.now ≡ count * 16 }
    ensures few { result ≤ count }
    ensures kept { KeepsUnits result at units.now calls.old.items calls.new.items }
{
    let run = run_length(calls, at, count);
    if keep_write(alloc, calls, at, &units[..run * 16]) {
        return run;
    }
    0
}

// How many of so many units one call takes: the last one, where they go on with it, or one of their own.
fn run_length(calls: &Vec<DeviceCall>, at: u64, count: usize) -> usize
    requires some { 0 < count }
    ensures some { 0 < result }
    ensures few { result ≤ count }
    ensures one { result * 16 ≤ 4096 }
    ensures fits { LastTakes result at calls.now.items }
{
    let len = calls.len();
    if len > 0 {
        let room = calls[len - 1].room_at(at);
        if room > 0 {
            return room.min(count);
        }
    }
    count.min(MOST_BYTES / 16)
}

// Keeps a write of these bytes as a call of its own, if there is memory for it.
fn keep_new_write(alloc: Global, calls: &mut Vec<DeviceCall>, at: u64, bytes: &[u8]) -> bool
    ensures { KeepsCall at bytes.now calls.old.items calls.new.items result }
{
    match bytes.to_vec(alloc) {
        Ok(bytes) => keep(calls, DeviceCall::Write { at, bytes }),
        Err(_) => false,
    }
}
