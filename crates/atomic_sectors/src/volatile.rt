//! A disk in memory that forgets stores each write whole.
use crate::untorn::UntornDisk;
use block_disk::Fault;
use disk_file::VolatileDisk;

impl UntornDisk for VolatileDisk {
    fn write_untorn(&mut self, at: u64, bytes: &[u8]) -> Result<(), Fault> {
        self.write(at, bytes);
        Ok(())
    }
}
