//! A disk over a device of atomic sectors.
ghost use Rattle.std.specs.Prelude.{◌≡◌, ◌↔◌, ◌⊎◌, ◌+◌, ◌*◌, ◌/◌, ◌^◌, ◌<◌, ◌≤◌, drop, IfErr, IfOk, IsErrOf, IsOk, IsTrue, OnErr, OnOk, [], true, false, length, replicate};
ghost use Rattle.block_disk.specs.Bytes.{part};
ghost use Rattle.block_disk.specs.Device.{Image, SameMoments, new_device, synced, unit_ranges, written, written_units};
ghost use Rattle.block_disk.specs.Since.{CountsOneMore, HasFailedSince, IsSameOrTorn, LeavesBut};
ghost use Rattle.block_disk.specs.declared.error.DiskError.TheVariants.{Fault, OutOfRange};
ghost use Rattle.atomic_sectors.specs.Left.{AlwaysWhole, LeavesWhole, MakesSyncs};
ghost use Rattle.journal_batches.specs.Areas.{image_bytes, room_of};
ghost use Rattle.journal_batches.specs.Shown.{shown};
ghost use Rattle.disk_journal.specs.Disks.{FitsBatch, IsSettled, IsSpent, SameBelow, ShowsDisk, ShowsOldOrNew};
ghost use Rattle.disk_journal.specs.Labels.{HasLabel, HasNoLabel};
ghost use Rattle.disk_journal.specs.Opened.{IsAfterAll, IsOpened, TellsWhy, WritesAgain, WritesAgainFirst};
ghost use Rattle.disk_journal.specs.Refusals.{AreNoJournal, IsRefused, IsUntouched, LacksRoom, RefusesRead, RefusesToMake, RefusesWrite, StandsThrough};
ghost use Rattle.disk_journal.specs.Stands.{IsMadeWithin, StandsStill};
ghost use Rattle.disk_journal.specs.declared.error.JournalError.TheVariants.{Fault as JournalFault, NoJournal, TooSmall};

use crate::error::JournalError;
use crate::label::has_room;
use crate::making::make_journal;
use crate::opening::{Opened, open_journal};
use crate::pages::PAGE;
use crate::syncing::{gather, go_on};
use crate::touching::note_write;
use atomic_sectors::UntornDisk;
use block_disk::{Disk, DiskError, Trace, copy_out, fail, lies_within, put};
use journal_batches::{Areas, Entry, replay_law};
use std::alloc::Global;
use std::marker::Model;

// From this stamp on there are no numbers for the two batches that a sync may write.
const LAST_STAMP: u64 = u64::MAX - 3;

/// A disk over a device of atomic sectors. What a sync has to change goes to the device as one batch of words, and a crash leaves all of it or nothing.
///
/// Its bytes are in memory. A sync makes one flush, if the words written since the last one fit into a batch; else three, and then a crash may leave any of them.
///
/// A `Fault` of a write is want of memory, and one of a sync a fault of the device, or the end of the numbers of batches after 2^62 - 2 syncs or more. After one of
/// the device the disk writes no more: each later write and sync is a `Fault`, until the device is opened again.
#[derive(Drop)]
pub struct Journaled<D: UntornDisk + Drop> {
    disk: D,
    areas: Areas,
    image: Vec<u8>,
    // Which half has the newest batch, its stamp, and its words, which aren't at their places yet.
    second: bool,
    stamp: u64,
    last: Vec<Entry>,
    // Where words were written since, and memory for as many entries.
    touched: Vec<u64>,
    next: Vec<Entry>,
    is_over: bool,
    failures: u64,
    trace: Trace,
}

impl<D: UntornDisk + Drop> Model for Journaled<D> {
    ghost use Rattle.std.specs.Prelude.{◌≡◌, ◌*◌, false};
    ghost use Rattle.std.specs.Vec.{vec_capacity, vec_len};
    ghost use Rattle.disk_journal.specs.Disks.{Layered};
    ghost use Rattle.disk_journal.specs.Kept.{HasRoom, IsKept, words_among};
    ghost use Rattle.block_disk.specs.Traced.{failing};

    ghost Value = { Layered };

    ghost view = { λ d. record { device = failing d.failures d.trace.past.device; disk = D.device d.disk; areas = d.areas; waiting = words_among (d.areas.image * 512) d.touched.items; stamp = d.stamp; is_over = d.is_over } };

    ghost invariant = { λ d. IsKept d.areas d.second d.stamp d.last.items d.touched.items d.is_over d.image.items d.trace.past.device.now (D.device d.disk)
        × (d.is_over ≡ false → HasRoom (vec_len d.touched) d.next.items (vec_len d.next) (vec_capacity d.next)) };
}

impl<D: UntornDisk + Drop> Journaled<D> {
    /// The disk that the device stands for. What was read is made durable first.
    ///
    /// Refused, with the device:
    /// - `NoJournal` where it begins with no label;
    /// - `TooSmall` where it has fewer bytes than its label says;
    /// - `Worn` where the numbers of its batches have come to their end. After these and `NoMemory` nothing was written;
    /// - `Fault`, as it comes. What the device stands for stays.
    pub fn open(alloc: Global, mut disk: D) -> Result<Journaled<D>, (D, JournalError)>
        // An opened disk is what the device stands for.
        ensures ok { IfOk result (λ opened. opened.device ≡ new_device (shown opened.areas (D.device disk).now.bytes)) }
        ensures label { IfOk result (λ opened. HasLabel opened.areas (D.device disk).now.bytes) }
        ensures room { IfOk result (λ opened. room_of opened.areas ≤ length (D.device disk).now.bytes) }
        ensures settled { IfOk result IsSettled }
        ensures works { IfOk result (λ opened. opened.is_over ≡ false) }
        ensures stamp { IfOk result (λ opened. opened.stamp < 2 ^ 63 + 2) }
        // Its stamp is two later than the latest one of all sectors in either half.
        ensures after { IfOk result (λ opened. IsAfterAll opened.areas (D.device disk).now.bytes opened.stamp) }
        // A crash at any moment of an opening leaves what stands for the same image.
        ensures left { IfOk result (λ opened. StandsThrough (D.device disk) opened.disk) }
        // So does a crash at any moment of one that is refused.
        ensures refused { IfErr result (λ back. StandsThrough (D.device disk) (D.device back.0)) }
        // Before its first flush an opening has written again what it trusts, for a flush that has failed before may have left that in a cache alone.
        ensures again { IfOk result (λ opened. WritesAgain opened.areas (D.device disk) opened.disk) }
        // So has one that is refused, if it came to a flush.
        ensures first { IfErr result (λ back. WritesAgainFirst (D.device disk) (D.device back.0)) }
        // An opening makes three flushes.
        ensures three_syncs { IfOk result (λ opened. MakesSyncs 3 (D.device disk) opened.disk) }
        // No call of an opening that succeeds has failed.
        ensures steady { IfOk result (λ opened. opened.disk.failures ≡ (D.device disk).failures) }
        // A refusal says why.
        ensures why { IfErr result (λ back. TellsWhy back.1 (D.device disk).now.bytes) }
        // A device without a label isn't opened.
        ensures unlabelled { HasNoLabel (D.device disk).now.bytes → IsRefused result NoJournal ⊎ IsRefused result JournalFault }
        // A refusal other than a fault leaves the device as it was.
        ensures untouched { IfErr result (λ back. IsUntouched back.1 (D.device disk) (D.device back.0)) }
        // A device that is no journal stays as it was, whatever fails.
        ensures others { IfErr result (λ back. AreNoJournal (D.device disk).now.bytes → SameMoments (D.device disk) (D.device back.0)) }
        ensures cause { IfErr result (λ back. back.1 ≡ JournalFault → HasFailedSince (D.device disk) (D.device back.0)) }
    {
        match open_journal(alloc, &mut disk) {
            Ok(opened) => Ok(Journaled::holding(alloc, disk, opened)),
            Err(why) => Err((disk, why)),
        }
    }

    /// A disk of zeros, durably; the device begins with its label then, which is written last.
    ///
    /// Refused, with the device:
    /// - `TooSmall` exactly where it has fewer bytes than the disk takes, or a half has no page;
    /// - then `NoMemory`. After either the device is as it was;
    /// - `Fault`: any bytes may stand in what the disk takes, but for a label.
    pub fn create(
        alloc: Global,
        mut disk: D,
        areas: Areas,
    ) -> Result<Journaled<D>, (D, JournalError)>
        // A new disk has zeros.
        ensures ok { IfOk result (λ made. made.device ≡ new_device (replicate (image_bytes areas) 0)) }
        ensures areas { IfOk result (λ made. made.areas ≡ areas) }
        ensures label { IfOk result (λ made. HasLabel areas made.disk.now.bytes) }
        ensures settled { IfOk result IsSettled }
        ensures works { IfOk result (λ made. made.is_over ≡ false) }
        ensures stamp { IfOk result (λ made. made.stamp ≡ 2) }
        // A making that begins with nothing pending and is cut off leaves no label, or the disk of zeros, whatever label the device had. What lies behind the disk stays.
        ensures left { IfOk result (λ made. (D.device disk).now.pending ≡ [] → LeavesWhole (D.device disk) made.disk (IsMadeWithin areas (D.device disk).now.bytes)) }
        ensures refused { IfErr result (λ back. (D.device disk).now.pending ≡ []
            → LeavesWhole (D.device disk) (D.device back.0) (IsMadeWithin areas (D.device disk).now.bytes)) }
        // A making makes four flushes.
        ensures four_syncs { IfOk result (λ made. MakesSyncs 4 (D.device disk) made.disk) }
        // No call of a making that succeeds has failed.
        ensures steady { IfOk result (λ made. made.disk.failures ≡ (D.device disk).failures) }
        ensures too_small { IsRefused result TooSmall ↔ LacksRoom areas (D.device disk).now.bytes }
        // A making is refused for want of room or of memory, or for a fault.
        ensures why { IfErr result (λ back. RefusesToMake areas (D.device disk).now.bytes back.1) }
        // A refusal other than a fault leaves the device as it was.
        ensures untouched { IfErr result (λ back. IsUntouched back.1 (D.device disk) (D.device back.0)) }
        // A making changes no byte behind the disk's.
        ensures past { IfOk result (λ made. drop (room_of areas) made.disk.now.bytes ≡ drop (room_of areas) (D.device disk).now.bytes) }
        ensures beyond { IfErr result (λ back. drop (room_of areas) (D.device back.0).now.bytes ≡ drop (room_of areas) (D.device disk).now.bytes) }
        ensures cause { IfErr result (λ back. back.1 ≡ JournalFault → HasFailedSince (D.device disk) (D.device back.0)) }
    {
        if !has_room(areas, disk.size()) {
            return Err((disk, JournalError::TooSmall));
        }
        let Ok(image) = vec![in alloc; 0u8; areas.image * PAGE] else {
            return Err((disk, JournalError::NoMemory));
        };
        match make_journal(&mut disk, areas) {
            Ok(()) => {}
            Err(_) => {
                drop(image);
                return Err((disk, JournalError::Fault));
            }
        }
        let opened = Opened {
            areas,
            second: false,
            stamp: 2,
            image,
        };
        Ok(Journaled::holding(alloc, disk, opened))
    }

    // The disk that was found or made.
    fn holding(alloc: Global, disk: D, opened: Opened) -> Journaled<D>
        requires { IsOpened opened (D.device disk) }
        ensures device { result.device ≡ new_device opened.image.items }
        ensures disk { result.disk ≡ D.device disk }
        ensures areas { result.areas ≡ opened.areas }
        ensures waiting { result.waiting ≡ 0 }
        ensures works { result.is_over ≡ false }
        ensures stamp { result.stamp ≡ opened.stamp }
    {
        let trace = Trace::of(&opened.image);
        Journaled {
            disk,
            areas: opened.areas,
            image: opened.image,
            second: opened.second,
            stamp: opened.stamp,
            last: Vec::new(alloc),
            touched: Vec::new(alloc),
            next: Vec::new(alloc),
            is_over: false,
            failures: 0,
            trace,
        }
    }

    /// The device that it lies on.
    pub fn disk(&self) -> &D
        ensures { D.device result.now ≡ self.now.disk }
    {
        &self.disk
    }

    /// The image: what a read gives.
    pub fn image(&self) -> &[u8]
        ensures { result.now ≡ self.now.device.now.bytes }
    {
        &self.image
    }

    /// The parts of the device.
    pub fn areas(&self) -> Areas
        ensures { result ≡ self.now.areas }
    {
        self.areas
    }

    /// Whatever a crash may leave of the device now stands for what it may leave of the disk.
    pub fn possible_law(&self)
        // Whatever a crash may leave of the device now stands for what a crash may leave of the disk now.
        ensures now { AlwaysWhole self.now.disk (ShowsDisk self.now) }
        // While no call has failed a crash leaves the image of the last sync.
        ensures settled { self.now.is_over ≡ false → AlwaysWhole self.now.disk (StandsStill self.now.areas self.now.disk.now.bytes) }
    {
        let _ = &self.image;
    }
}

impl<D: UntornDisk + Drop> Disk for Journaled<D> {
    ghost device = { λ d. d.device };

    fn size(&self) -> u64 {
        self.image.len() as u64
    }

    /// Reads the memory, and never answers `Fault`.
    fn read_at(&mut self, at: u64, out: &mut [u8]) -> Result<(), DiskError>
        ensures in_range { OnOk result (at + length out.old ≤ length self.old.device.now.bytes) }
        ensures ok { OnOk result (out.new ≡ part at (length out.old) self.old.device.now.bytes) }
        ensures same { OnOk result (self.new.device ≡ self.old.device) }
        ensures out_of_range { RefusesRead at out.old out.new self.old.device self.new.device result }
        ensures fault { IsErrOf result Fault → SameMoments self.old.device self.new.device }
        ensures cause { IsErrOf result Fault → HasFailedSince self.old.device self.new.device }
        ensures counted { IsErrOf result Fault → CountsOneMore self.old.device self.new.device }
        ensures no_fault { ¬ IsErrOf result Fault }
        ensures below { SameBelow self.old self.new }
        ensures waiting { self.new.waiting ≡ self.old.waiting }
        ensures stamp { self.new.stamp ≡ self.old.stamp }
    {
        if !lies_within(at, out.len(), self.image.len()) {
            return Err(DiskError::OutOfRange);
        }
        copy_out(&self.image, at, out);
        Ok(())
    }

    /// Writes the memory, and leaves the device as it is. `Fault` is want of memory, or a disk that writes no more.
    fn write_at(&mut self, at: u64, bytes: &[u8]) -> Result<(), DiskError>
        ensures in_range { OnOk result (at + length bytes.now ≤ length self.old.device.now.bytes) }
        ensures ok { OnOk result (self.new.device ≡ written at bytes.now self.old.device) }
        ensures out_of_range { RefusesWrite at bytes.now self.old.device self.new.device result }
        ensures fault { IsErrOf result Fault → IsSameOrTorn at (length bytes.now) self.old.device self.new.device }
        ensures cause { IsErrOf result Fault → HasFailedSince self.old.device self.new.device }
        ensures counted { IsErrOf result Fault → CountsOneMore self.old.device self.new.device }
        // A write that fails has written nothing.
        ensures untorn { IsErrOf result Fault → SameMoments self.old.device self.new.device }
        // A write leaves the device below as it is.
        ensures below { SameBelow self.old self.new }
        // What waits for a sync grows by the words in which the bytes lie, at most.
        ensures waiting { self.new.waiting ≤ self.old.waiting + (length bytes.now / 8 + 2) }
        // One that fails leaves what waits.
        ensures unchanged { ¬ IsOk result → self.new.waiting ≡ self.old.waiting }
        ensures stamp { self.new.stamp ≡ self.old.stamp }
        // A disk that writes no more says so.
        ensures over { self.old.is_over ≡ true → ¬ IsOk result }
    {
        if !lies_within(at, bytes.len(), self.image.len()) {
            return Err(DiskError::OutOfRange);
        }
        if self.is_over {
            return Err(fail(&mut self.failures));
        }
        let is_noted = note_write(
            &mut self.touched,
            &mut self.next,
            at,
            bytes.len(),
            self.image.len(),
        );
        if !is_noted {
            return Err(fail(&mut self.failures));
        }
        put(&mut self.image, at, bytes);
        self.trace.write(at, bytes);
        Ok(())
    }

    /// Writes the memory, a unit after the other, and leaves the device as it is. `Fault` is as of a write; the units before it were written then.
    fn write_units(&mut self, at: u64, units: &[u8], count: usize) -> Result<(), block_disk::Fault>
        requires some { 0 < count }
        requires whole { length units.now ≡ count * 16 }
        requires fits { at + length units.now ≤ length self.old.device.now.bytes }
        ensures ok { OnOk result (self.new.device ≡ written_units count at units.now self.old.device) }
        ensures any_moment { LeavesBut (unit_ranges count at) self.old.device self.new.device }
        ensures cause { OnErr result (HasFailedSince self.old.device self.new.device) }
        ensures counted { OnErr result (CountsOneMore self.old.device self.new.device) }
        // A run of units leaves the device below as it is.
        ensures below { SameBelow self.old self.new }
        // What waits for a sync grows by four words for each unit, at most.
        ensures waiting { self.new.waiting ≤ self.old.waiting + count * 4 }
        ensures stamp { self.new.stamp ≡ self.old.stamp }
        // A disk that writes no more says so.
        ensures over { self.old.is_over ≡ true → ¬ IsOk result }
    {
        let _size = self.size();
        for i in 0..count {
            let from = i * 16;
            match self.write_at(at + from as u64, &units[from..from + 16]) {
                Ok(()) => {}
                Err(_) => return Err(block_disk::Fault),
            }
        }
        Ok(())
    }

    /// Makes what was written durable: by one flush, if it fits into a batch.
    fn sync(&mut self) -> Result<(), DiskError>
        ensures ok { OnOk result (self.new.device ≡ synced self.old.device) }
        ensures in_range { ¬ IsErrOf result OutOfRange }
        ensures fault { IsErrOf result Fault → SameMoments self.old.device self.new.device }
        ensures cause { IsErrOf result Fault → HasFailedSince self.old.device self.new.device }
        ensures counted { IsErrOf result Fault → CountsOneMore self.old.device self.new.device }
        // Whatever a crash leaves at any moment of a sync stands for what a crash of the disk might have left before the sync, whatever the sync answers.
        ensures any_moment { LeavesWhole self.old.disk self.new.disk (ShowsDisk self.old) }
        // If what waits fits into a batch, that is the image of the last sync or of this one, and nothing else.
        ensures old_or_new { FitsBatch self.old → self.old.is_over ≡ false → LeavesWhole self.old.disk self.new.disk (ShowsOldOrNew self.old) }
        // And then a sync makes one flush.
        ensures one_sync { FitsBatch self.old → OnOk result (MakesSyncs 1 self.old.disk self.new.disk) }
        // Else it makes three.
        ensures three_syncs { ¬ FitsBatch self.old → OnOk result (MakesSyncs 3 self.old.disk self.new.disk) }
        // No call of a sync that succeeds has failed.
        ensures steady { OnOk result (self.new.disk.failures ≡ self.old.disk.failures) }
        // After a sync all is durable.
        ensures settled { OnOk result (IsSettled self.new) }
        // A sync fails only where a call of the device has failed, in it or before, or once the numbers of batches have come to their end.
        ensures why { ¬ IsOk result → (self.old.is_over ≡ true) ⊎ HasFailedSince self.old.disk self.new.disk ⊎ IsSpent self.old }
        // The disk writes no more only after a call of the device has failed.
        ensures ends { self.old.is_over ≡ false → self.new.is_over ≡ true → HasFailedSince self.old.disk self.new.disk }
        // A sync takes two numbers of batches at most.
        ensures stamp { self.new.stamp ≤ self.old.stamp + 2 }
        // A sync that fails leaves what waits, and has called nothing if the disk writes on.
        ensures unchanged { ¬ IsOk result → (self.new.waiting ≡ self.old.waiting) × (self.new.is_over ≡ false → SameBelow self.old self.new) }
        ensures areas { self.new.areas ≡ self.old.areas }
        // A disk that writes no more says so, and calls the device no more.
        ensures over { self.old.is_over ≡ true → (¬ IsOk result) × SameBelow self.old self.new }
        ensures works { OnOk result (self.new.is_over ≡ false) }
    {
        if self.is_over || self.stamp >= LAST_STAMP {
            return Err(fail(&mut self.failures));
        }
        gather(&mut self.touched, &self.image, &mut self.next);
        replay_law();
        match go_on(
            &mut self.disk,
            self.areas,
            &mut self.second,
            &mut self.stamp,
            &mut self.last,
            &mut self.next,
        ) {
            Ok(()) => {}
            Err(_) => {
                self.is_over = true;
                return Err(fail(&mut self.failures));
            }
        }
        self.touched.clear();
        self.trace.sync();
        Ok(())
    }

    fn failures(&self) -> u64 {
        self.failures
    }
}
