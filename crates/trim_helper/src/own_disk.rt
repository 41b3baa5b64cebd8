//! A look at a helper's device.
ghost use Rattle.std.specs.Prelude.{◌≡◌};

use crate::helper::Helper;
use block_disk::Disk;

impl<D: Disk> Helper<D> {
    /// Its device, to look at.
    pub fn disk(&self) -> &D
        // The device of a helper can be looked at.
        ensures { result.now ≡ self.now.store.disk }
    {
        self.store.disk()
    }
}
