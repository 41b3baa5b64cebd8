//! How a ring begins.

ghost use Rattle.std.specs.Prelude.{◌≡◌, ◌<◌, ◌^◌, IfOk};
ghost use Rattle.monitor.specs.Seats.{IsSeatOf};
ghost use Rattle.thread_rings.specs.Following.{whose};
ghost use Rattle.thread_rings.specs.Rings.{AreOf, IsNewReceiver, IsNewSender, IsPair};

use crate::receiver::Receiver;
use crate::sender::Sender;
use crate::sent::{Following, Sent};
use heap_model::{FieldId, Record};
use monitor::{Seat, Shared, Told};
use rtrb::RingBuffer;
use std::alloc::{AllocError, Global};

/// The two ends of a ring for the lane of this seat, with room for so many records. Its greeting was sent and taken. An error is want
/// of memory. One load of the shared words.
pub fn open_ring(
    alloc: Global,
    shared: &Shared,
    seat: &mut Seat,
    capacity: usize,
) -> Result<(Sender, Receiver), AllocError>
    requires seat { IsSeatOf shared.now seat.old }
    requires capacity { (0 < capacity) × (capacity < 2 ^ 32) }
    ensures seat { (seat.new.table ≡ seat.old.table) × (seat.new.view ≡ seat.old.view) }
    ensures pair { IfOk result (λ r. IsPair r.0 r.1) }
    // A new ring has sent nothing, and knows all its slots to be free: the greeting takes no room.
    ensures sender { IfOk result (λ r. IsNewSender capacity r.0) }
    ensures receiver { IfOk result (λ r. IsNewReceiver capacity r.1) }
    // Both ends of a new ring know whose it is: which table of shared words, which plan and which lane.
    ensures whose { IfOk result (λ r. AreOf (whose seat.old) r.0 r.1) }
{
    let (mut ring, mut other) = RingBuffer::with_protocol::<Global, Following>(alloc, capacity)?;
    let told = Told::of(shared.witness(seat));
    let entry = Record::Put {
        field: FieldId(0),
        before: 0,
        after: 0,
    };
    ring.push_reserved(Sent { entry, told });
    other.slots_beside(&mut ring);
    let _ = other.pop_known();
    ring.slots_beside(&mut other);
    let receiver = Receiver {
        ring: other,
        told: Told::nothing(),
        is_told: false,
    };
    Ok((Sender { ring }, receiver))
}
