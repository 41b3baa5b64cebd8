//! A disk in memory stores nothing of a write that fails.
use crate::untorn::UntornDisk;
use block_disk::{Disk, Fault, MemDisk};

impl UntornDisk for MemDisk {
    fn write_untorn(&mut self, at: u64, bytes: &[u8]) -> Result<(), Fault> {
        match self.write_at(at, bytes) {
            Ok(()) => Ok(()),
            Err(_) => Err(Fault),
        }
    }
}
