//! A disk whose bytes reach a file at each sync.
ghost use Rattle.std.specs.Prelude.{◌≡◌, ◌+◌, ◌++◌, ◌*◌, List, ◌<◌, ◌≤◌, length, replicate, IfOk, IfSome, IsErrOf, IsOk, OnErr, OnOk};
ghost use Rattle.block_disk.specs.Bytes.{part};
ghost use Rattle.disk_file.specs.Backing.{CrashesAs, HasFound, IsPendingIn, KeepsAllBut, KeepsStill, Mends, Reads, ReadsBut, ReadsForGood, ReadsSettled, StaysBut, WaitsWithin, bytes_at};
ghost use Rattle.disk_file.specs.Mirror.{LacksIn, LacksNoMore};
ghost use Rattle.block_disk.specs.Device.{Image, Range, SameMoments, SameOutside, new_device, synced, unit_ranges, written, written_units};
ghost use Rattle.block_disk.specs.Since.{CountsOneMore, HasFailedSince, LeavesBut};
ghost use Rattle.block_disk.specs.declared.error.DiskError.TheVariants.{Fault, OutOfRange};
ghost use Rattle.disk_file.specs.Buffered.{AllWithin, GoesOn, IsWithin};
ghost use Rattle.disk_file.specs.Refusals.{IsBeyond, IsSameOrTornBy, RefusesRead, RefusesWrite};

use crate::backing::BackingFile;
use crate::error::FileError;
use crate::span::{Span, add};
use crate::whole::{create_file, fill, find_file, read_whole};
use block_disk::{Disk, DiskError, Trace, copy_out, fail, lies_within, put};
use std::alloc::Global;
use std::fs::Files;
use std::io;
use std::marker::Model;

/// A disk whose bytes are in memory, and reach a file at each sync. Writes that follow one another reach it as one.
///
/// It takes its bytes, and a range for each run of writes since the last sync: nothing grows with the calls before that.
///
/// A `Fault` is one of the file, or want of memory for one more range. A disk goes on to work after it: the next sync
/// writes again what was written since the last one that succeeded. What it may claim of a crash rests on the file: that
/// `fdatasync` makes durable what this disk has written before it, and that a write leaves the bytes outside its range
/// alone. Between two syncs each written range may hold any bytes, so a write may as well reach the file at the sync.
/// No other process may write the file meanwhile. The folder is never synced, so that a power failure soon after
/// [`create`](BufferedDisk::create) may leave no file of that name.
#[derive(Drop)]
pub struct BufferedDisk<F: BackingFile + Drop> {
    bytes: Vec<u8>,
    file: F,
    // Written since the last sync that succeeded.
    unwritten: Vec<Span>,
    failures: u64,
    trace: Trace,
}

impl<F: BackingFile + Drop> Model for BufferedDisk<F> {
    ghost use Rattle.disk_file.specs.Mirror.{Mirror};
    ghost use Rattle.disk_file.specs.Buffered.{IsDeferred};
    ghost use Rattle.block_disk.specs.Traced.{failing};

    ghost Value = { Mirror };

    ghost view = { λ d. record { device = failing d.failures d.trace.past.device; file = F.holds d.file } };

    ghost invariant = { λ d. IsDeferred d.trace.past.device d.bytes.items d.unwritten.items (F.holds d.file) };
}

impl<F: BackingFile + Drop> BufferedDisk<F> {
    /// A disk of `size` zero bytes, in a file that is new or is emptied for it.
    ///
    /// The file is opened first (`Fault`); then there is memory for the bytes or there isn't (`NoMemory`); then the file
    /// is filled and synced (`Fault`).
    pub fn create<R: Files<File = F>>(
        rt: &R,
        alloc: Global,
        path: &str,
        size: u64,
    ) -> Result<BufferedDisk<F>, FileError>
        ensures ok { IfOk result (λ disk. disk.device ≡ new_device (replicate size 0)) }
        ensures durable { IfOk result (λ disk. ReadsForGood (replicate size 0) disk.file) }
    {
        BufferedDisk::filled(alloc, create_file(rt, path)?, size)
    }

    /// The disk whose bytes the file has, as many as its length says. Refused as of [`found`](BufferedDisk::found), and by `Fault` where it
    /// can't be opened.
    pub fn attach<R: Files<File = F>>(
        rt: &R,
        alloc: Global,
        path: &str,
        places: &[u64],
    ) -> Result<BufferedDisk<F>, FileError>
        ensures ok { IfOk result (λ disk. disk.device ≡ new_device disk.device.now.bytes) }
    {
        BufferedDisk::found(alloc, find_file(rt, path)?, places)
    }

    /// A disk of `size` zero bytes in this file, which is open and whatever it had. Refused as of [`create`](BufferedDisk::create).
    pub fn filled(alloc: Global, mut file: F, size: u64) -> Result<BufferedDisk<F>, FileError>
        ensures ok { IfOk result (λ disk. disk.device ≡ new_device (replicate size 0)) }
        ensures durable { IfOk result (λ disk. ReadsForGood (replicate size 0) disk.file) }
    {
        let bytes = vec![in alloc; 0u8; size as usize].map_err(|_| FileError::NoMemory)?;
        fill(&mut file, &bytes)?;
        let trace = Trace::of(&bytes);
        Ok(BufferedDisk {
            bytes,
            file,
            unwritten: Vec::new(alloc),
            failures: 0,
            trace,
        })
    }

    /// The disk of the bytes in this file, which is open. Of these only those at the places are written, each with its own value.
    ///
    /// The file is synced and measured first (`Fault`); then there is memory for the bytes or there isn't (`NoMemory`); then they are read,
    /// and the bytes at the places written again and synced (`Fault`).
    pub fn found(alloc: Global, mut file: F, places: &[u64]) -> Result<BufferedDisk<F>, FileError>
        ensures ok { IfOk result (λ disk. disk.device ≡ new_device disk.device.now.bytes) }
        ensures given { IfOk result (λ disk. IfSome (F.holds file)
            (λ h. disk.device.now.bytes ≡ h.reads)) }
        // Once a file is open as a disk, a crash leaves what was read of it, but for bytes elsewhere than at the places that
        // its device didn't have.
        ensures lacks { IfOk result (λ disk. IfSome (F.holds file)
            (λ h. (stale : List Range) → SameOutside (bytes_at places.now ++ stale) h.reads h.kept.bytes → LacksIn stale disk)) }
        // Opening a file as a disk writes the bytes at the places, each with its own value, and no others.
        ensures found { IfOk result (λ disk. HasFound (bytes_at places.now) (F.holds file) disk.file) }
    {
        let bytes = read_whole(alloc, &mut file, places)?;
        let trace = Trace::of(&bytes);
        Ok(BufferedDisk {
            bytes,
            file,
            unwritten: Vec::new(alloc),
            failures: 0,
            trace,
        })
    }

    /// The file reads at every moment one of the images that a crash may leave.
    pub fn possible_law(&self)
        // The file reads what a crash of the device might leave now.
        ensures reads { IfSome self.now.file (λ h. Image self.now.device.now h.reads) }
        // Whatever a crash leaves of the file now is what one of the device may leave, but for bytes that the file's device
        // lacks since before it was opened.
        ensures crash { (stale : List Range) → LacksIn stale self.now → CrashesAs stale self.now.device.now self.now.file }
    {
        let _ = &self.bytes;
    }
}

impl<F: BackingFile + Drop> Disk for BufferedDisk<F> {
    ghost device = { λ d. d.device };

    fn size(&self) -> u64 {
        self.bytes.len() as u64
    }

    /// Reads the memory, and never answers `Fault`.
    fn read_at(&mut self, at: u64, out: &mut [u8]) -> Result<(), DiskError>
        ensures in_range { OnOk result (at + length out.old ≤ length self.old.device.now.bytes) }
        ensures ok { OnOk result (out.new ≡ part at (length out.old) self.old.device.now.bytes) }
        ensures same { OnOk result (self.new.device ≡ self.old.device) }
        ensures out_of_range { RefusesRead at out.old out.new self.old.device self.new.device result }
        ensures fault { IsErrOf result Fault → SameMoments self.old.device self.new.device }
        ensures cause { IsErrOf result Fault → HasFailedSince self.old.device self.new.device }
        ensures counted { IsErrOf result Fault → CountsOneMore self.old.device self.new.device }
        ensures no_fault { ¬ IsErrOf result Fault }
        ensures file { self.new.file ≡ self.old.file }
    {
        if !lies_within(at, out.len(), self.bytes.len()) {
            return Err(DiskError::OutOfRange);
        }
        copy_out(&self.bytes, at, out);
        Ok(())
    }

    /// Writes the memory, and leaves the file as it is. `Fault` is want of memory for one more range; nothing is written
    /// then. A write that goes on with the last one since a sync takes no memory.
    fn write_at(&mut self, at: u64, bytes: &[u8]) -> Result<(), DiskError>
        ensures in_range { OnOk result (at + length bytes.now ≤ length self.old.device.now.bytes) }
        ensures ok { OnOk result (self.new.device ≡ written at bytes.now self.old.device) }
        ensures out_of_range { RefusesWrite at bytes.now self.old.device self.new.device result }
        ensures fault { IsErrOf result Fault → IsSameOrTornBy at bytes.now self.old.device self.new.device }
        ensures cause { IsErrOf result Fault → HasFailedSince self.old.device self.new.device }
        ensures counted { IsErrOf result Fault → CountsOneMore self.old.device self.new.device }
        ensures untorn { IsErrOf result Fault → SameMoments self.old.device self.new.device }
        ensures beyond { IsBeyond at bytes.now self.old.device → IsErrOf result OutOfRange }
        // A write that begins within the last pending range, or right after it, can't fail, for want of memory either.
        ensures goes_on { GoesOn at self.old.device.now.pending → ¬ IsErrOf result Fault }
        // A write leaves the file as it was.
        ensures file { self.new.file ≡ self.old.file }
        // What is written isn't lacked: a write leaves no more of what was found to be lacked.
        ensures lacks { LacksNoMore self.old self.new }
    {
        let size = self.bytes.len();
        if !lies_within(at, bytes.len(), size) {
            return Err(DiskError::OutOfRange);
        }
        if !add(&mut self.unwritten, at, bytes.len() as u64, size as u64) {
            return Err(fail(&mut self.failures));
        }
        put(&mut self.bytes, at, bytes);
        self.trace.write(at, bytes);
        Ok(())
    }

    /// Writes the memory at once, and keeps one range for all. `Fault` is want of memory for that; nothing is written then.
    fn write_units(&mut self, at: u64, units: &[u8], count: usize) -> Result<(), block_disk::Fault>
        requires some { 0 < count }
        requires whole { length units.now ≡ count * 16 }
        requires fits { at + length units.now ≤ length self.old.device.now.bytes }
        ensures ok { OnOk result (self.new.device
            ≡ written_units count at units.now self.old.device) }
        ensures any_moment { LeavesBut (unit_ranges count at) self.old.device self.new.device }
        ensures cause { OnErr result (HasFailedSince self.old.device self.new.device) }
        ensures counted { OnErr result (CountsOneMore self.old.device self.new.device) }
        ensures untorn { OnErr result (SameMoments self.old.device self.new.device) }
        // A write that begins within the last pending range, or right after it, can't fail, for want of memory either.
        ensures goes_on { GoesOn at self.old.device.now.pending → IsOk result }
        // A write leaves the file as it was.
        ensures file { self.new.file ≡ self.old.file }
        // What is written isn't lacked: a write leaves no more of what was found to be lacked.
        ensures lacks { LacksNoMore self.old self.new }
    {
        let size = self.bytes.len();
        let len = units.len() as u64;
        if !add(&mut self.unwritten, at, len, size as u64) {
            fail(&mut self.failures);
            return Err(block_disk::Fault);
        }
        put(&mut self.bytes, at, units);
        self.trace.write_units(at, units, count);
        Ok(())
    }

    /// Writes to the file what was written since the last sync that succeeded, and syncs it.
    fn sync(&mut self) -> Result<(), DiskError>
        ensures ok { OnOk result (self.new.device ≡ synced self.old.device) }
        ensures in_range { ¬ IsErrOf result OutOfRange }
        ensures fault { IsErrOf result Fault → SameMoments self.old.device self.new.device }
        ensures cause { IsErrOf result Fault → HasFailedSince self.old.device self.new.device }
        ensures counted { IsErrOf result Fault → CountsOneMore self.old.device self.new.device }
        // After a sync that succeeds, whatever failed before, the file reads the device's bytes, and nothing is pending.
        ensures settled { OnOk result (ReadsSettled self.new.device.now.bytes self.new.file) }
        // A sync brings to the file's device all that was written; of what was only found it lacks no more than before.
        ensures lacks { LacksNoMore self.old self.new }
    {
        if let Err(_error) = flush(&mut self.file, &self.unwritten, &self.bytes) {
            return Err(fail(&mut self.failures));
        }
        self.unwritten.clear();
        self.trace.sync();
        Ok(())
    }

    fn failures(&self) -> u64 {
        self.failures
    }
}

// Makes the file read these bytes, with nothing pending; it reads them but for these ranges, in which all lies that is pending.
fn flush<F: BackingFile>(file: &mut F, spans: &[Span], bytes: &[u8]) -> io::Result<()>
    requires within { AllWithin (length bytes.now) spans.now }
    requires near { ReadsBut spans.now bytes.now (F.holds file.old) }
    requires waits { IsPendingIn spans.now (F.holds file.old) }
    ensures ok { OnOk result (ReadsSettled bytes.now (F.holds file.new)) }
    ensures kept { OnOk result (KeepsAllBut spans.now bytes.now (F.holds file.old) (F.holds file.new)) }
    ensures near { OnErr result (ReadsBut spans.now bytes.now (F.holds file.new)) }
    ensures waits { OnErr result (IsPendingIn spans.now (F.holds file.new)) }
    ensures still { OnErr result (KeepsStill spans.now bytes.now (F.holds file.old) (F.holds file.new)) }
{
    write_spans(file, spans, bytes)?;
    file.settle()
}

// Writes these bytes in each of the ranges.
fn write_spans<F: BackingFile>(file: &mut F, spans: &[Span], bytes: &[u8]) -> io::Result<()>
    requires within { AllWithin (length bytes.now) spans.now }
    requires near { ReadsBut spans.now bytes.now (F.holds file.old) }
    requires waits { IsPendingIn spans.now (F.holds file.old) }
    ensures ok { OnOk result (Reads bytes.now (F.holds file.new)) }
    ensures kept { OnOk result (KeepsAllBut spans.now bytes.now (F.holds file.old) (F.holds file.new)) }
    ensures near { OnErr result (ReadsBut spans.now bytes.now (F.holds file.new)) }
    ensures waits { IsPendingIn spans.now (F.holds file.new) }
    ensures still { OnErr result (KeepsStill spans.now bytes.now (F.holds file.old) (F.holds file.new)) }
{
    let mut rest = spans;
    while let Some((first, later)) = rest.split_first() {
        if let Err(error) = write_span(file, first, bytes) {
            return Err(error);
        }
        rest = later;
    }
    Ok(())
}

// Writes these bytes in one range.
fn write_span<F: BackingFile>(file: &mut F, span: &Span, bytes: &[u8]) -> io::Result<()>
    requires { IsWithin (length bytes.now) span.now }
    ensures ok { OnOk result (Mends span.now bytes.now (F.holds file.old) (F.holds file.new)) }
    ensures near { OnErr result (StaysBut span.now bytes.now (F.holds file.old) (F.holds file.new)) }
    ensures waits { WaitsWithin span.now (F.holds file.old) (F.holds file.new) }
{
    let start = span.start() as usize;
    file.write_to(span.start(), &bytes[start..start + span.len() as usize])
}
