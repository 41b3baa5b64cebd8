//! The set of threads that wait for a monitor.

ghost use Rattle.std.specs.Prelude.{◌≡◌, ◌<◌, ◌^◌, ℕ, true, false, ◌↔◌, IsTrue, IsSome, IfSome, MatchOption, Some};
ghost use Rattle.std.specs.Int.{bit_at};
ghost use Rattle.std.specs.FinSet as set;
ghost use Rattle.std.specs.Ordering.{nat_cmp};
ghost use Rattle.lock_word.specs.WaitMask.{mask_of, bit_of, IsLaneSet, IsLeast};

use heap_model::{LANES, Lane};
use std::marker::Model;

/// The wait set of a monitor (JLS 17.2). Contracts see it as a set of lanes, by number.
#[derive(Clone, Copy, Debug, PartialEq, Eq)]
pub struct WaitMask {
    // Bit l is set where lane l is in the set.
    lanes: u32,
}

impl Model for WaitMask {
    ghost use Rattle.std.specs.Prelude.{◌<◌, ◌^◌};
    ghost use Rattle.std.specs.Ordering.{nat_cmp};
    ghost use Rattle.std.specs.FinSet as set;
    ghost use Rattle.std.specs.Coded.{coded_ℕ};
    ghost use Rattle.lock_word.specs.WaitMask.{lanes_of, mask_of};
    ghost use Rattle.lock_word.specs.OneMask.{mask_of-lanes_of};

    ghost Value = { set.FinSet nat_cmp };

    ghost coded = { set.code coded_ℕ };

    ghost view = { λ m. lanes_of m.lanes };

    ghost invariant = { λ m. m.lanes < 2 ^ 32 };

    ghost inverse = { λ lanes. record { lanes = mask_of lanes } };

    ghost inverse_ok = { λ m small i. record { lanes = mask_of-lanes_of m.lanes small i } };
}

/// Whether a mask has room for this lane.
pub fn is_lane(lane: Lane) -> bool
    ensures { IsTrue result ↔ (lane.0 < LANES) }
{
    usize::from(lane.0) < LANES
}

impl WaitMask {
    /// The set of no lane.
    pub fn empty() -> WaitMask
        ensures { result ≡ set.empty }
    {
        WaitMask { lanes: 0 }
    }

    /// The set that these 64 bits spell, if they spell one. Each set is spelled by one word.
    pub fn parse(word: u64) -> Option<WaitMask>
        // A set of lanes that is read from a word has exactly the word's bits.
        ensures spelled { IfSome result (λ lanes. mask_of lanes ≡ word) }
        // Each set of lanes is read back from its mask.
        ensures back { (lanes : set.FinSet nat_cmp) → IsLaneSet lanes → mask_of lanes ≡ word
            → result ≡ Some lanes }
        ensures some { IsSome result ↔ (word < 2 ^ 32) }
    {
        match u32::try_from(word) {
            Ok(lanes) => Some(WaitMask { lanes }),
            Err(_) => None,
        }
    }

    /// The 64 bits, as the table of shared words keeps them.
    pub fn bits(self) -> u64
        // A mask has one bit for each lane of its set.
        ensures mask { result ≡ mask_of self }
        ensures bit { (lane : ℕ) → bit_at result lane ≡ bit_of self lane }
        ensures within { IsLaneSet self }
    {
        u64::from(self.lanes)
    }

    /// The set with this lane, which may be in it already.
    pub fn with(self, lane: Lane) -> WaitMask
        requires { lane.0 < LANES }
        // The set is the old one with the lane.
        ensures { result ≡ set.insert self lane.0 }
    {
        WaitMask {
            lanes: self.lanes | 1u32 << u32::from(lane.0),
        }
    }

    /// The set without this lane, which need not be in it.
    pub fn without(self, lane: Lane) -> WaitMask
        requires { lane.0 < LANES }
        // The set is the old one without the lane.
        ensures { result ≡ set.remove self lane.0 }
    {
        WaitMask {
            lanes: self.lanes & !(1u32 << u32::from(lane.0)),
        }
    }

    /// Whether the lane is in the set.
    pub fn has(self, lane: Lane) -> bool
        requires { lane.0 < LANES }
        // The answer is true exactly where the lane is in the set.
        ensures { result ≡ set.contains self lane.0 }
    {
        self.lanes >> u32::from(lane.0) & 1 == 1
    }

    /// The lowest lane in the set.
    pub fn least(self) -> Option<Lane>
        // The answer is the lowest lane of the set, or none where the set is empty.
        ensures { MatchOption result (self ≡ set.empty) (λ lane. IsLeast self lane.0) }
    {
        if self.lanes == 0 {
            return None;
        }
        Some(Lane(self.lanes.trailing_zeros() as u8))
    }
}
