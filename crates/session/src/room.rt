//! Whether there is room for another section.

ghost use Rattle.std.specs.Prelude.{◌+◌, ◌<◌, ◌≤◌, ◌^◌, ◌↔◌, length, IsTrue, MatchBool};
ghost use Rattle.std.specs.Bool.{OnFalse};
ghost use Rattle.rtrb.specs.Ring.{known_free, producer_capacity};
ghost use Rattle.thread_rings.specs.Rings.{SenderLooked, sent};
ghost use Rattle.session.specs.Keeping.{LooksForRoom};
ghost use Rattle.thread_steps.specs.Views.{view, IsSeatOf};

use monitor::{Seat, Shared};
use thread_rings::Sender;

/// Whether so many slots of the ring are known to be free.
#[inline(always)]
pub fn ring_has_room(ring: &mut Sender, needed: usize) -> bool
    ensures looked { SenderLooked ring.old ring.new }
    ensures room { MatchBool result (needed ≤ known_free ring.new) (producer_capacity ring.old < length (sent ring.old) + needed) }
    ensures short { OnFalse result (known_free ring.new < needed) }
{
    if ring.cached_slots() >= needed {
        return true;
    }
    ring.slots() >= needed
}

// Whether so many records since the trimmed place fit the lane.
#[inline(always)]
fn is_lane_wide(trimmed: u64, place: u64, capacity: u64, needed: u64) -> bool
    requires small { place + needed < 2 ^ 64 }
    requires needed { needed ≤ capacity }
    ensures { IsTrue result ↔ (place + needed ≤ trimmed + capacity) }
{
    place.saturating_sub(trimmed) + needed <= capacity
}

/// Whether so many records fit the lane, by the trimmed place that was read last, or else by the one that is published.
#[inline(always)]
pub fn lane_has_room(
    shared: &Shared,
    seat: &mut Seat,
    trimmed: &mut u64,
    place: u64,
    capacity: u64,
    needed: u64,
) -> bool
    requires seat { IsSeatOf shared.now seat.old }
    requires small { place + needed < 2 ^ 64 }
    requires needed { needed ≤ capacity }
    requires known { trimmed.old ≤ (view seat.old).trimmed }
    ensures { LooksForRoom shared.now seat.old seat.new trimmed.old trimmed.new (place + needed) capacity result }
{
    if is_lane_wide(*trimmed, place, capacity, needed) {
        return true;
    }
    *trimmed = thread_steps::read_trimmed(shared, seat);
    is_lane_wide(*trimmed, place, capacity, needed)
}
