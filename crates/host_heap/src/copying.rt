//! A copy of a heap's disk in memory.
ghost use Rattle.disk_deferred.specs.Copying.{CopiesFrom};
ghost use Rattle.host_heap.specs.Hosting.{hosted_device};

use crate::closing::Closed;
use crate::heap::HostedHeap;

impl HostedHeap {
    /// Copies the bytes of its disk in memory from `at` on into `out`, as many as there are and `out` has room for, and answers how many:
    /// none where `at` is at the end or past it. After them `out` stays as it was. The bytes are those that the host's device has once
    /// the host has made all calls; a whole copy, made between two rounds, is an image of the heap (`law_hosted::host_law`).
    pub fn copy_from(&self, at: u64, out: &mut [u8]) -> usize
        // A copy gets the bytes of the heap's disk from a place on, as many as there are and the buffer has room for.
        // The heap and the host's calls stay as they were.
        ensures { CopiesFrom (hosted_device self.now.helper.store.disk).now.bytes at out.old out.new result }
    {
        self.helper.disk().copy_from(at, out)
    }
}

impl Closed {
    /// Copies the bytes of the disk in memory, as [`HostedHeap::copy_from`] does. A whole copy is an image of the heap that was closed.
    pub fn copy_from(&self, at: u64, out: &mut [u8]) -> usize
        // A copy gets the bytes of the heap's disk from a place on, as many as there are and the buffer has room for.
        // The heap and the host's calls stay as they were.
        ensures { CopiesFrom (hosted_device self.now.disk).now.bytes at out.old out.new result }
    {
        self.disk.copy_from(at, out)
    }
}
