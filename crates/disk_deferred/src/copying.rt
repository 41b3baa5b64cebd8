//! A copy of a deferred disk's bytes.
ghost use Rattle.disk_deferred.specs.Copying.{CopiesFrom};
ghost use Rattle.disk_deferred.specs.Deferred.{deferred_device};

use crate::disk::DeferredDisk;
use block_disk::copy_out;

impl DeferredDisk {
    /// Copies the bytes of the memory from `at` on into `out`, as many as there are and `out` has room for, and answers how many: none
    /// where `at` is at the end or past it. After them `out` stays as it was. No call is kept or handed over.
    pub fn copy_from(&self, at: u64, out: &mut [u8]) -> usize
        // A copy gets the bytes of the disk in memory from a place on, as many as there are and the buffer has room
        // for. After them the buffer stays as it was.
        ensures { CopiesFrom (deferred_device self.now).now.bytes at out.old out.new result }
    {
        copy_piece(&self.bytes, at, out)
    }
}

// Copies the bytes from `at` on, as many as there are and `out` has room for. How many.
fn copy_piece(image: &[u8], at: u64, out: &mut [u8]) -> usize
    ensures { CopiesFrom image.now at out.old out.new result }
{
    let size = image.len();
    if at >= size as u64 {
        return 0;
    }
    let count = (size - at as usize).min(out.len());
    copy_out(image, at, &mut out[..count]);
    count
}
