//! A thread that waits for a monitor.

ghost use Rattle.std.specs.Prelude.{◌≡◌, ◌+◌, ◌<◌, ◌≤◌, Some, None, length, true, false};
ghost use Rattle.rtrb.specs.Ring.{producer_capacity};
ghost use Rattle.heap_model.specs.declared.limits.TheConstants.{SECTION_RECORDS, RING_RECORDS};
ghost use Rattle.session.specs.declared.limits.TheConstants.{MOST_HELD};
ghost use Rattle.thread_steps.specs.declared.limits.TheConstants.{FAT_LOCKS};
ghost use Rattle.thread_rings.specs.Following.{whose};
ghost use Rattle.thread_rings.specs.Rings.{whose_ring};
ghost use Rattle.session.specs.Grips.{grip_in};
ghost use Rattle.session.specs.Kept.{HasRoomIn, StaysIn};
ghost use Rattle.session.specs.Past.{kept_props};
ghost use Rattle.thread_steps.specs.Views.{view, IsPaused, IsClear, IsRemoved, IsSlot};

use crate::parts::Parts;
use heap_model::ObjectId;

/// A session that waits for a monitor, which it has freed (JLS 17.2.1). It can do nothing but resume; other monitors that it
/// held it still holds. A thread that waits for a monitor with the last number never comes back.
#[derive(Drop)]
pub struct Waiting {
    pub(crate) parts: Parts,
    // The object that it waits for, by how many locks it held that, and its fat slot.
    pub(crate) object: ObjectId,
    pub(crate) count: u32,
    pub(crate) slot: u32,
    // The thread is known to have been removed from the wait set.
    pub(crate) removed: bool,
    ghost stays: { StaysIn parts } by { Prim.hlevel kept_props },
    ghost room: { HasRoomIn parts } by { Prim.hlevel kept_props },
    ghost short: { parts.records + length parts.held.items + 2 ≤ SECTION_RECORDS },
    ghost few: { length parts.held.items < MOST_HELD },
    ghost gone: { grip_in object.0 parts.held.items ≡ None } by { Prim.hlevel kept_props },
    ghost paused: { IsPaused (view parts.seat) object count } by { Prim.hlevel kept_props },
    ghost counted: { (0 < count) × (count ≤ FAT_LOCKS) },
    ghost low: { object.0 < (view parts.seat).plan.objects },
    ghost named: { IsSlot (view parts.seat) object (Some slot) } by { Prim.hlevel kept_props },
    ghost gone_from: { removed ≡ true → IsRemoved (view parts.seat) object } by { Prim.hlevel kept_props },
    ghost still_in: { removed ≡ false → IsClear (view parts.seat) } by { Prim.hlevel kept_props },
    ghost sized: { RING_RECORDS ≤ producer_capacity parts.ring },
    ghost owned: { whose_ring parts.ring ≡ Some (whose parts.seat) } by { Prim.hlevel kept_props },
}
