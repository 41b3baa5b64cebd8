//! What a crash may leave between two calls.
ghost use Rattle.std.specs.Prelude.{◌≤◌, length};
ghost use Rattle.block_disk.specs.Device.{LeftSince};
ghost use Rattle.atomic_sectors.specs.Left.{AlwaysWhole};
ghost use Rattle.host_journal.specs.Hosted.{StandsFor};

use crate::journal::HostJournal;

impl HostJournal {
    /// Whatever a crash may leave of the device below stands for what a crash of the heap's device might have left since the last sync.
    pub fn possible_law(&self)
        // Whatever a crash may leave of the device now stands for what one of the heap's device might have left since the last sync.
        ensures left { AlwaysWhole self.now.disk (StandsFor self.now.areas (LeftSince self.now.base self.now.heap)) }
        // The last sync isn't after the heap's latest moment.
        ensures base { self.now.base ≤ length self.now.heap.past }
    {
        let _ = &self.parts;
    }
}
