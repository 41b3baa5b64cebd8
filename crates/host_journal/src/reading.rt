//! What a journal holds, and the calls for its host.
ghost use Rattle.std.specs.Prelude.{◌≡◌, ◌+◌, ◌<◌, ◌≤◌, [], false, IfSome, IsErrOf, MatchOption, OnErr, OnOk, length};
ghost use Rattle.block_disk.specs.Bytes.{part};
ghost use Rattle.block_disk.specs.declared.error.DiskError.TheVariants.{Fault, OutOfRange};
ghost use Rattle.disk_deferred.specs.Handing.{AreLeft, IsSmall};
ghost use Rattle.disk_deferred.specs.Host.{Fetches, HasLooked, IsFirst, MakesFirst};
ghost use Rattle.rtrb.specs.Ring.{known_items};
ghost use Rattle.host_journal.specs.Calls.{HasRead};
ghost use Rattle.host_journal.specs.Hosted.{SameButCalls};

use crate::journal::HostJournal;
use block_disk::{Disk, DiskError};
use disk_deferred::{DeferredDisk, DeviceCall};
use disk_journal::Journaled;
use journal_batches::Areas;

impl HostJournal {
    /// The number of bytes that the heap's device has. No call changes it.
    pub fn size(&self) -> u64
        ensures { result ≡ length self.now.heap.now.bytes }
    {
        self.parts.disk.size()
    }

    /// The parts of the device below.
    pub fn areas(&self) -> Areas
        ensures { result ≡ self.now.areas }
    {
        self.parts.disk.areas()
    }

    /// How many turns took one flush, since it was opened. The count stays at 2^64 - 1 once it is there.
    pub fn turns(&self) -> u64
        ensures { result ≡ self.now.turns }
    {
        self.parts.turns
    }

    /// Reads the bytes from `at` on, as they were at the last order or sync. Never a `Fault`.
    pub fn read(&mut self, at: u64, out: &mut [u8]) -> Result<(), DiskError>
        ensures read { HasRead at out.old out.new self.old result }
        // A read changes nothing.
        ensures same { self.new ≡ self.old }
    {
        read_held(&mut self.parts.disk, at, out)
    }

    /// As [`HostCalls::fetch`](disk_deferred::HostCalls::fetch), of the device below.
    pub fn fetch(&mut self)
        ensures fetches { Fetches self.old.calls self.new.calls }
        ensures to_sync { AreLeft self.new.calls.left }
        ensures same { SameButCalls self.old self.new }
    {
        self.calls.fetch();
    }

    /// As [`HostCalls::waiting`](disk_deferred::HostCalls::waiting).
    pub fn waiting(&mut self) -> usize
        ensures count { result ≡ length (known_items self.new.calls.ring) }
        ensures looked { HasLooked self.old.calls self.new.calls }
        ensures same { SameButCalls self.old self.new }
    {
        self.calls.waiting()
    }

    /// As [`HostCalls::next_call`](disk_deferred::HostCalls::next_call).
    pub fn next_call(&self) -> Option<&DeviceCall>
        ensures first { MatchOption result (self.now.calls.left ≡ []) (λ call. IsFirst call.now self.now.calls.left) }
        ensures small { IfSome result (λ call. IsSmall call.now) }
    {
        self.calls.next_call()
    }

    /// As [`HostCalls::done`](disk_deferred::HostCalls::done).
    pub fn done(&mut self) -> bool
        ensures none { self.old.calls.left ≡ [] → (result ≡ false) × (self.new.calls ≡ self.old.calls) }
        ensures one { MakesFirst self.old.calls self.new.calls result }
        ensures same { SameButCalls self.old self.new }
    {
        self.calls.done()
    }
}

// Reads what the journal holds.
fn read_held(disk: &mut Journaled<DeferredDisk>, at: u64, out: &mut [u8]) -> Result<(), DiskError>
    ensures ok { OnOk result (out.new ≡ part at (length out.old) disk.old.device.now.bytes) }
    ensures in_range { OnOk result (at + length out.old ≤ length disk.old.device.now.bytes) }
    ensures out_of_range { IsErrOf result OutOfRange → length disk.old.device.now.bytes < at + length out.old }
    ensures refused { OnErr result (out.new ≡ out.old) }
    ensures no_fault { ¬ IsErrOf result Fault }
    ensures same { disk.new ≡ disk.old }
{
    disk.read_at(at, out)
}
