//! A session: one thread's use of the heap.

ghost use Rattle.std.specs.Prelude.{◌≡◌, ◌≤◌, Some};
ghost use Rattle.rtrb.specs.Ring.{producer_capacity};
ghost use Rattle.heap_model.specs.declared.limits.TheConstants.{RING_RECORDS};
ghost use Rattle.thread_rings.specs.Following.{whose};
ghost use Rattle.thread_rings.specs.Rings.{whose_ring};
ghost use Rattle.session.specs.Kept.{SitsIn};
ghost use Rattle.session.specs.Past.{kept_props};

use crate::parts::Parts;

/// One thread's use of the heap: the seat of its lane, the monitors that it holds, and its end of the ring through which
/// the helper gets its records. It may cross to another thread.
///
/// Contracts see it as the events that its calls have told, the newest first (`specs/Logs`). A call that is refused leaves
/// what it holds, its fields and its log as they were ([`SessionError`](crate::SessionError)).
#[derive(Drop)]
pub struct Session {
    pub(crate) parts: Parts,
    ghost sits: { SitsIn parts } by { Prim.hlevel kept_props },
    ghost sized: { RING_RECORDS ≤ producer_capacity parts.ring },
    ghost owned: { whose_ring parts.ring ≡ Some (whose parts.seat) } by { Prim.hlevel kept_props },
}
