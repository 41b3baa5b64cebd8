//! A heap's device over a journal.
ghost use Rattle.host_journal.specs.Calls.{HasOrdered, HasSynced, HasWritten};

use crate::gathering::Gathering;
use crate::taking::{gather, keep, turn};
use block_disk::{Disk, DiskError, Fault, Trace, lies_within};
use disk_deferred::HostCalls;
use journal_batches::Areas;
use std::alloc::Global;
use std::marker::Model;

/// A heap's device: it takes the heap's calls, and hands over those of a journal over the device below, which has atomic sectors.
///
/// A write is kept until the next order or sync. An order is a sync of the heap's behind which more of its calls wait: none of what comes after it becomes durable
/// before all that comes before it. A sync makes all of it durable, as soon as the host has made the calls that it hands over: the heap is told of its sync then.
/// What was written since the last sync goes to the device by one flush, if its words fit into a batch of the journal; a crash leaves it whole or not at all then.
///
/// A `Fault` is want of memory, or of room in the ring of calls. A write, an order or a sync may be tried again after it; one that can't succeed any more is a `Fault` each time.
#[derive(Drop)]
pub struct HostJournal {
    pub(crate) alloc: Global,
    pub(crate) parts: Gathering,
    pub(crate) calls: HostCalls,
    // The heap's calls; and the same with an empty write for each order, so that its last sync is the heap's last sync that isn't an order.
    pub(crate) trace: Trace,
    pub(crate) marks: Trace,
}

impl Model for HostJournal {
    ghost use Rattle.host_journal.specs.Hosted.{Hosted};
    ghost use Rattle.host_journal.specs.Gathered.{IsHosted, view_of};

    ghost Value = { Hosted };

    ghost view = { λ h. view_of h.parts h.trace.past h.marks.past.stops h.calls };

    ghost invariant = { λ h. IsHosted h.parts h.trace.past h.marks.past.stops };
}

impl HostJournal {
    /// Keeps a write of the heap's. `OutOfRange` is one past the image's end, `Fault` want of memory: nothing is kept then.
    pub fn write(&mut self, at: u64, bytes: &[u8]) -> Result<(), DiskError>
        // A write is kept, and leaves all else; one that is refused leaves all as it was.
        ensures { HasWritten at bytes.now self.old self.new result }
    {
        if !lies_within(at, bytes.len(), self.parts.disk.size() as usize) {
            return Err(DiskError::OutOfRange);
        }
        if !keep(self.alloc, &mut self.parts, at, bytes) {
            return Err(DiskError::Fault);
        }
        self.trace.write(at, bytes);
        self.marks.write(at, bytes);
        Ok(())
    }

    /// A sync of the heap's behind which more of its calls wait. The device is called only if what was written doesn't fit into one batch.
    pub fn order(&mut self) -> Result<(), Fault>
        // A crash at any moment of an order leaves what stands for an image that one of the heap's device might have left since the last sync.
        ensures { HasOrdered self.old self.new result }
    {
        if !gather(&mut self.parts) {
            return Err(Fault);
        }
        self.trace.sync();
        self.marks.write(0, &[]);
        Ok(())
    }

    /// A sync of the heap's. The host makes the calls that it hands over, and then all that was written is durable.
    pub fn sync(&mut self) -> Result<(), Fault>
        // After a sync all is durable. A crash in it leaves what stands for an image of the heap's device since the last sync. Where the words fit into a batch, it makes
        // one flush, and leaves what stands for all that was written since the last turn or for nothing of it.
        ensures { HasSynced self.old self.new result }
    {
        if !gather(&mut self.parts) {
            return Err(Fault);
        }
        if !turn(&mut self.parts) {
            return Err(Fault);
        }
        self.trace.sync();
        self.marks.sync();
        Ok(())
    }
}
