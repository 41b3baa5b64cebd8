//! How many records a ring has room for.

ghost use Rattle.std.specs.Prelude.{◌≡◌, ◌<◌, ◌≤◌, ◌⊎◌, MatchOption};
ghost use Rattle.heap_model.specs.declared.limits.TheConstants.{RING_RECORDS};

use heap_model::RING_RECORDS;
use std::marker::Model;

/// The most records that a lane's ring has room for.
pub const MOST_RING_RECORDS: usize = 65_536;

/// How many records a lane's ring has room for: [`RING_RECORDS`] to [`MOST_RING_RECORDS`]. Contracts see it as that number.
#[derive(Clone, Copy)]
pub struct RingRecords {
    pub(crate) records: usize,
}

impl Model for RingRecords {
    ghost use Prim.Native.Nat.{ℕ};
    ghost use Rattle.thread_rings.specs.Rings.{IsRingSize};

    ghost Value = { ℕ };

    ghost view = { λ r. r.records };

    ghost inverse = { λ n. record { records = n } };

    ghost invariant = { λ r. IsRingSize r.records };
}

impl RingRecords {
    /// So many, or `None` where a ring can't have that room.
    pub fn of(records: usize) -> Option<RingRecords>
        ensures { MatchOption result ((records < RING_RECORDS) ⊎ (MOST_RING_RECORDS < records)) (λ r. r ≡ records) }
    {
        if records < RING_RECORDS || records > MOST_RING_RECORDS {
            None
        } else {
            Some(RingRecords { records })
        }
    }

    /// As many as a ring has where nobody chooses: [`RING_RECORDS`].
    pub fn usual() -> RingRecords
        ensures { result ≡ RING_RECORDS }
    {
        RingRecords {
            records: RING_RECORDS,
        }
    }

    /// How many.
    pub fn get(self) -> usize
        ensures number { result ≡ self }
        ensures within { (RING_RECORDS ≤ result) × (result ≤ MOST_RING_RECORDS) }
    {
        self.records
    }
}
