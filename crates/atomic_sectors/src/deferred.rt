//! A disk whose calls a host makes has its bytes in memory, and stores nothing of a write that fails.
use crate::untorn::UntornDisk;
use block_disk::{Disk, Fault};
use disk_deferred::DeferredDisk;

impl UntornDisk for DeferredDisk {
    fn write_untorn(&mut self, at: u64, bytes: &[u8]) -> Result<(), Fault> {
        match self.write_at(at, bytes) {
            Ok(()) => Ok(()),
            Err(_) => Err(Fault),
        }
    }
}
