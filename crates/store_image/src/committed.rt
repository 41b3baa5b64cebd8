//! The control that every image of a store shows.
ghost use Rattle.std.specs.Prelude.{◌≡◌, replicate};
ghost use Rattle.image_parts.specs.Rows.{empty_row};

use image::{LaneRow, Slot};

/// The control that was committed last: its slot, its sequence, and what counts of each lane's log.
#[derive(Clone, Copy, Debug, PartialEq, Eq)]
pub struct Committed {
    /// The slot that counts.
    pub slot: Slot,
    /// Its sequence: the greater one while both gates are open.
    pub sequence: u64,
    /// By lane.
    pub rows: [LaneRow; 32],
}

impl Committed {
    /// The control of a device as recovery leaves it: nothing in any log.
    pub fn empty(slot: Slot, sequence: u64) -> Committed
        ensures { result ≡ record {
          slot = slot;
          sequence = sequence;
          rows = replicate 32 empty_row;
        } }
    {
        Committed {
            slot,
            sequence,
            rows: [LaneRow::EMPTY; 32],
        }
    }
}
