//! A journal for a host: opened, or made.
ghost use Rattle.std.specs.Prelude.{◌≡◌, [], IfErr, IfOk, IsOk};
ghost use Rattle.block_disk.specs.Device.{new_device};
ghost use Rattle.disk_journal.specs.Labels.{HasLabel, HasNoLabel};
ghost use Rattle.host_journal.specs.Calls.{IsMade, IsOpened, RefusesMaking, RefusesOpening};
ghost use Rattle.host_journal.specs.Gathered.{IsTurned};
ghost use Rattle.host_journal.specs.Hosted.{IsNew};

use crate::gathering::Gathering;
use crate::journal::HostJournal;
use crate::room::room_for;
use block_disk::Trace;
use disk_deferred::{DeferredDisk, HostCalls};
use disk_journal::{JournalError, Journaled};
use journal_batches::Areas;
use std::alloc::Global;

impl HostJournal {
    /// The journal of a device that has these bytes, durably. They are copied. The host makes the calls that are handed over, before all others.
    pub fn open(alloc: Global, bytes: &[u8]) -> Result<HostJournal, JournalError>
        // A journal is opened as what its device stands for, and no moment of the opening changes that.
        ensures ok { IfOk result (IsOpened bytes.now) }
        // A refusal says why.
        ensures why { IfErr result (RefusesOpening bytes.now) }
        // A device without a label isn't opened.
        ensures unlabelled { HasNoLabel bytes.now → ¬ IsOk result }
    {
        let (disk, calls) = match DeferredDisk::from_bytes(alloc, bytes) {
            Ok(both) => both,
            Err(_) => return Err(JournalError::NoMemory),
        };
        match Journaled::open(alloc, disk) {
            Ok(disk) => Ok(HostJournal::holding(alloc, disk, calls)),
            Err((disk, why)) => {
                drop(disk);
                drop(calls);
                Err(why)
            }
        }
    }

    /// A journal of zeros, for a device of zeros. The host makes the calls that are handed over, before all others.
    ///
    /// `TooSmall` is a half without a page, `NoMemory` also more bytes than a device may have.
    pub fn create(alloc: Global, areas: Areas) -> Result<HostJournal, JournalError>
        // A journal is made of zeros; a making that is cut off leaves no label, or that.
        ensures ok { IfOk result (IsMade areas) }
        ensures why { IfErr result (RefusesMaking areas) }
        // No journal is made whose halves have no page.
        ensures no_half { areas.half ≡ 0 → ¬ IsOk result }
    {
        let Some(size) = room_for(areas) else {
            return Err(JournalError::NoMemory);
        };
        let (disk, calls) = match DeferredDisk::new(alloc, size) {
            Ok(both) => both,
            Err(_) => return Err(JournalError::NoMemory),
        };
        match Journaled::create(alloc, disk, areas) {
            Ok(disk) => Ok(HostJournal::holding(alloc, disk, calls)),
            Err((disk, why)) => {
                drop(disk);
                drop(calls);
                Err(why)
            }
        }
    }

    // The journal that was found or made.
    fn holding(alloc: Global, disk: Journaled<DeferredDisk>, calls: HostCalls) -> HostJournal
        requires device { disk.device ≡ new_device disk.device.now.bytes }
        requires turned { IsTurned disk }
        requires label { HasLabel disk.areas disk.disk.now.bytes }
        requires calls { (calls.made ≡ []) × (calls.left ≡ []) }
        ensures heap { result.heap ≡ disk.device }
        ensures disk { result.disk ≡ disk.disk }
        ensures areas { result.areas ≡ disk.areas }
        ensures new { IsNew result }
    {
        let trace = Trace::of(disk.image());
        let parts = Gathering {
            disk,
            group: Vec::new(alloc),
            moved: 0,
            taken: 0,
            words: 0,
            turns: 0,
        };
        HostJournal {
            alloc,
            parts,
            calls,
            trace,
            marks: Trace::of(&[]),
        }
    }
}
