//! The steps of a wait (JLS 17.2.1).

ghost use Rattle.std.specs.Prelude.{◌≡◌, ◌<◌, ◌≤◌, [], ◌∷◌, Some, None, MatchBool, ℕ};
ghost use Rattle.heap_model.specs.declared.event.Event.TheVariants as event;
ghost use Rattle.heap_model.specs.declared.event.Sight.TheVariants.{StillInSet};
ghost use Rattle.thread_steps.specs.declared.limits.TheConstants.{FAT_LOCKS};
ghost use Rattle.thread_steps.specs.Views.{view, plan, IsSeatOf, Keeps, KeepsEach, KeepsOthers, Lengthens, IsClear, IsAwake, IsPaused, IsRemoved, TriesAgain, IsSlot, hold};

use crate::grip::{Grip, Seen};
use crate::locking::fat_word;
use heap_model::ObjectId;
use monitor::{Seat, Shared};

/// Joins the wait set of a fat monitor and frees the monitor, whatever its count, which is kept aside (JLS 17.2.1). A
/// fetch-or and a store.
pub fn join_wait(shared: &Shared, seat: &mut Seat, grip: Grip)
    requires seat { IsSeatOf shared.now seat.old }
    requires keeps { Keeps (view seat.old) grip }
    requires free { IsClear (view seat.old) × IsAwake (view seat.old) }
    requires fat { (i : ℕ) × (grip.slot ≡ Some i) }
    ensures seat { IsSeatOf shared.now seat.new }
    ensures clear { IsClear (view seat.new) }
    // The call adds just its event to the thread's view, with what the answer tells.
    ensures told { Lengthens (view seat.old) (view seat.new) (event.Wait grip.object grip.number ∷ []) }
    ensures grips { KeepsOthers (view seat.old) (view seat.new) grip.object.0 }
{
    let slot = grip.slot.unwrap();
    let word = fat_word(shared, seat, grip, slot);
    shared.join_wait(seat, grip.object);
    shared.wait(seat, grip.object, slot, word);
}

/// Whether the thread, which waits, is still in the wait set. At `false` it was removed, and may try to retake the
/// monitor. One load.
pub fn poll_wait(shared: &Shared, seat: &mut Seat, object: ObjectId) -> bool
    requires seat { IsSeatOf shared.now seat.old }
    requires object { object.0 < (plan shared.now).objects }
    requires clear { IsClear (view seat.old) }
    requires waits { (count : ℕ) × IsPaused (view seat.old) object count }
    ensures seat { IsSeatOf shared.now seat.new }
    // The call tells that the thread is still in the wait set; or it tells nothing, where the thread was removed from
    // it.
    ensures told { MatchBool result
        (Lengthens (view seat.old) (view seat.new) (event.Look object StillInSet ∷ []) × IsClear (view seat.new))
        (Lengthens (view seat.old) (view seat.new) [] × IsRemoved (view seat.new) object) }
    ensures grips { KeepsEach (view seat.old) (view seat.new) }
{
    shared.poll_wait(seat, object)
}

/// After a wait: takes the monitor again by `count` locks, as before it, if it is still free at this release number.
/// Returns the grip, or the fat word that was found. One compare-exchange.
pub fn try_retake(
    shared: &Shared,
    seat: &mut Seat,
    object: ObjectId,
    count: u32,
    slot: u32,
    number: u64,
) -> Result<Grip, Seen>
    requires seat { IsSeatOf shared.now seat.old }
    requires object { object.0 < (plan shared.now).objects }
    requires removed { IsRemoved (view seat.old) object }
    requires waits { IsPaused (view seat.old) object count }
    requires free_of { hold (view seat.old) object.0 ≡ None }
    requires count { (0 < count) × (count ≤ FAT_LOCKS) }
    requires number { number < (plan shared.now).last }
    requires slot { IsSlot (view seat.old) object (Some slot) }
    ensures { TriesAgain shared.now seat.old seat.new object count slot number result }
{
    match shared.try_resume(seat, object, slot, (count - 1) as u16, number) {
        Ok(_word) => Ok(Grip {
            object,
            count,
            number,
            slot: Some(slot),
        }),
        Err(word) => {
            seat.stands();
            Err(Seen::Fat(word))
        }
    }
}
