//! What C calls of a pool: of the fields in which it is kept, and on the session of a handle.
ghost use Rattle.std.specs.Prelude.{◌≡◌, ◌≢◌};
ghost use Rattle.zelamiku.specs.HandleDoors.{ByHandle};
ghost use Rattle.zelamiku.specs.PoolDoors.{AreFreeAnywhere, GivesAt, LaysOutAt, TakesAt};
ghost use Rattle.zelamiku.specs.SessionDoors.{AnswersAs};
ghost use Rattle.zelamiku.specs.declared.pool_calls.TheConstants.{NO_SLOT};
ghost use Rattle.zelamiku.specs.declared.status.TheConstants.{OK};

use crate::slot::Slot;
use crate::words::Field;
use crate::{pool_calls, status};

/// Lays out the fields of a pool of this object, for a heap to be made: the head's, and one for each slot.
#[unsafe(no_mangle)]
pub extern "C" fn zelamiku_pool_fields(object: u32, fields: &mut [Field]) -> u32
    // The fields of a pool that C is told are persistent, of its object and guarded by it. No slot, or too many, leaves
    // them as they were.
    ensures laid { LaysOutAt object fields.old fields.new result }
    // Wherever a pool's fields stand among a heap's fields, their first values spell all slots free, in order.
    ensures free { result ≡ OK → AreFreeAnywhere fields.new }
{
    pool_calls::lay_out(object, fields)
}

/// Takes a slot of the pool.
#[unsafe(no_mangle)]
pub extern "C" fn zelamiku_pool_take(place: &mut Slot, head: u32, slots: u32, slot: &mut u32) -> u32
    // A pool's slot is taken as by a session, of the pool of that head and of so many slots. A pool for which no heap
    // has room is refused first.
    ensures told { ByHandle (AnswersAs (TakesAt head slots slot.new)) place.old place.new result }
    // Where no slot is taken `NO_SLOT` is told.
    ensures refused { result ≢ OK → slot.new ≡ NO_SLOT }
{
    *slot = pool_calls::NO_SLOT;
    if !place.is_open() {
        return status::NOTHING;
    }
    let (taken, answer) = pool_calls::take(place.handle.as_mut(), head, slots);
    *slot = taken;
    answer
}

/// Gives a slot back to the pool.
#[unsafe(no_mangle)]
pub extern "C" fn zelamiku_pool_give(place: &mut Slot, head: u32, slots: u32, slot: u32) -> u32
    // A pool's slot is given as by a session. A pool for which no heap has room, and a slot that the pool hasn't, are
    // refused first.
    ensures told { ByHandle (AnswersAs (GivesAt head slots slot)) place.old place.new result }
{
    if !place.is_open() {
        return status::NOTHING;
    }
    pool_calls::give(place.handle.as_mut(), head, slots, slot)
}
