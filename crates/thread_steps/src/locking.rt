//! Looking at monitors, taking and leaving them, thin or fat (JLS 17.1).

ghost use Rattle.std.specs.Prelude.{◌≡◌, ◌+◌, ◌-◌, ◌<◌, ◌≤◌, [], ◌∷◌, Some, None, MatchOption};
ghost use Rattle.heap_model.specs.declared.event.Event.TheVariants as event;
ghost use Rattle.lock_word.specs.declared.lock_word.Shape.TheVariants.{Thin};
ghost use Rattle.lock_word.specs.declared.fat_word.FatShape.TheVariants.{Held};
ghost use Rattle.lock_word.specs.Spelling.{sight_of};
ghost use Rattle.monitor.specs.Views.{lane_of};
ghost use Rattle.monitor.specs.Seats.{HoldsThin, HoldsFat};
ghost use Rattle.thread_steps.specs.Views.{view, plan, IsSeatOf, Keeps, KeepsEach, KeepsOthers, Lengthens, IsLasting, IsClear, IsAwake, Takes, Tries, Fattens, IsWhole, AgreesWith, IsSlot, room_of, hold};

use crate::grip::{Grip, Seen, Sighted};
use heap_model::ObjectId;
use lock_word::{FAT_SLOTS, FatWord, LockWord, Shape};
use monitor::{Seat, Shared};

/// One look at the monitor: a load of its lock word, and where that is fat one of its fat word.
pub fn look(shared: &Shared, seat: &mut Seat, object: ObjectId) -> Sighted
    requires seat { IsSeatOf shared.now seat.old }
    requires object { object.0 < (plan shared.now).objects }
    ensures seat { IsSeatOf shared.now seat.new }
    ensures mark { (view seat.new).mark ≡ (view seat.old).mark }
    ensures told { Lengthens (view seat.old) (view seat.new) (event.Look object (sight_of result.lock result.fat) ∷ []) }
    ensures whole { IsWhole (view seat.new) object result.lock result.fat }
    ensures agrees { AgreesWith (view seat.new) object (sight_of result.lock result.fat) }
    // A fat lock word that was seen is known whole, for good.
    ensures lasting { IsLasting (view seat.new) object result.lock }
    ensures grips { KeepsEach (view seat.old) (view seat.new) }
{
    monitor::sight_law();
    let lock = shared.look(seat, object);
    match lock.shape() {
        Shape::Fat { index, .. } => {
            let fat = shared.look_fat(seat, object, index);
            seat.stands();
            Sighted {
                lock,
                fat: Some(fat),
            }
        }
        Shape::Free { .. } => {
            seat.stands();
            Sighted { lock, fat: None }
        }
        Shape::Thin { .. } => {
            seat.stands();
            Sighted { lock, fat: None }
        }
    }
}

/// Takes the monitor by one lock, if it is still free at this release number. `slot` is its fat slot, if the seat knows of
/// one. Returns the grip, or the word that was found. One compare-exchange.
#[inline(always)]
pub fn try_take(
    shared: &Shared,
    seat: &mut Seat,
    object: ObjectId,
    slot: Option<u32>,
    number: u64,
) -> Result<Grip, Seen>
    requires seat { IsSeatOf shared.now seat.old }
    requires object { object.0 < (plan shared.now).objects }
    requires free { IsClear (view seat.old) × IsAwake (view seat.old) }
    requires free_of { hold (view seat.old) object.0 ≡ None }
    requires number { number < (plan shared.now).last }
    requires slot { IsSlot (view seat.old) object slot }
    ensures { Tries shared.now seat.old seat.new object slot number result }
{
    match slot {
        None => match shared.try_take(seat, object, number) {
            Ok(_word) => Ok(Grip {
                object,
                count: 1,
                number,
                slot: None,
            }),
            Err(word) => {
                seat.stands();
                Err(Seen::Lock(word))
            }
        },
        Some(index) => match shared.try_take_fat(seat, object, index, number) {
            Ok(_word) => Ok(Grip {
                object,
                count: 1,
                number,
                slot: Some(index),
            }),
            Err(word) => {
                seat.stands();
                Err(Seen::Fat(word))
            }
        },
    }
}

/// One lock more. One store.
pub fn nest(shared: &Shared, seat: &mut Seat, grip: Grip) -> Grip
    requires seat { IsSeatOf shared.now seat.old }
    requires keeps { Keeps (view seat.old) grip }
    requires free { IsClear (view seat.old) × IsAwake (view seat.old) }
    requires room { grip.count < room_of grip.slot }
    ensures seat { IsSeatOf shared.now seat.new }
    ensures clear { IsClear (view seat.new) }
    // The call adds just its event to the thread's view, with what the answer tells.
    ensures told { Takes (view seat.old) (view seat.new) (event.NestedEnter grip.object) grip.object (grip.count + 1) grip.number result }
    // The grip has the monitor's slot, as it was known before the call.
    ensures slot { result.slot ≡ grip.slot }
    ensures grips { KeepsOthers (view seat.old) (view seat.new) grip.object.0 }
{
    match grip.slot {
        None => {
            let word = thin_word(shared, seat, grip);
            shared.nest(seat, grip.object, word);
            Grip {
                object: grip.object,
                count: grip.count + 1,
                number: grip.number,
                slot: None,
            }
        }
        Some(slot) => {
            let word = fat_word(shared, seat, grip, slot);
            shared.nest_fat(seat, grip.object, slot, word);
            Grip {
                object: grip.object,
                count: grip.count + 1,
                number: grip.number,
                slot: Some(slot),
            }
        }
    }
}

/// One lock less, which isn't the last. One store.
pub fn unnest(shared: &Shared, seat: &mut Seat, grip: Grip) -> Grip
    requires seat { IsSeatOf shared.now seat.old }
    requires keeps { Keeps (view seat.old) grip }
    requires free { IsClear (view seat.old) × IsAwake (view seat.old) }
    requires several { 1 < grip.count }
    ensures seat { IsSeatOf shared.now seat.new }
    ensures clear { IsClear (view seat.new) }
    // The call adds just its event to the thread's view, with what the answer tells.
    ensures told { Takes (view seat.old) (view seat.new) (event.NestedExit grip.object) grip.object (grip.count - 1) grip.number result }
    // The grip has the monitor's slot, as it was known before the call.
    ensures slot { result.slot ≡ grip.slot }
    ensures grips { KeepsOthers (view seat.old) (view seat.new) grip.object.0 }
{
    match grip.slot {
        None => {
            let word = thin_word(shared, seat, grip);
            shared.unnest(seat, grip.object, word);
            Grip {
                object: grip.object,
                count: grip.count - 1,
                number: grip.number,
                slot: None,
            }
        }
        Some(slot) => {
            let word = fat_word(shared, seat, grip, slot);
            shared.unnest_fat(seat, grip.object, slot, word);
            Grip {
                object: grip.object,
                count: grip.count - 1,
                number: grip.number,
                slot: Some(slot),
            }
        }
    }
}

/// The last unlock, by which the monitor becomes free with the next release number. One store.
pub fn release(shared: &Shared, seat: &mut Seat, grip: Grip)
    requires seat { IsSeatOf shared.now seat.old }
    requires keeps { Keeps (view seat.old) grip }
    requires free { IsClear (view seat.old) × IsAwake (view seat.old) }
    requires one { grip.count ≡ 1 }
    ensures seat { IsSeatOf shared.now seat.new }
    ensures clear { IsClear (view seat.new) }
    // The call adds just its event to the thread's view, with what the answer tells.
    ensures told { Lengthens (view seat.old) (view seat.new) (event.Exit grip.object grip.number ∷ []) }
    // What is known of the monitor's slot stays when the monitor is left.
    ensures slot { IsSlot (view seat.new) grip.object grip.slot }
    ensures grips { KeepsOthers (view seat.old) (view seat.new) grip.object.0 }
{
    match grip.slot {
        None => {
            let word = thin_word(shared, seat, grip);
            shared.release(seat, grip.object, word);
        }
        Some(slot) => {
            let word = fat_word(shared, seat, grip, slot);
            shared.release_fat(seat, grip.object, slot, word);
        }
    }
}

/// Inflates a thin monitor, if a fat slot is left. Returns the grip in its slot, or `None` where no slot is left.
pub fn inflate(shared: &Shared, seat: &mut Seat, grip: Grip) -> Option<Grip>
    requires seat { IsSeatOf shared.now seat.old }
    requires keeps { Keeps (view seat.old) grip }
    requires free { IsClear (view seat.old) × IsAwake (view seat.old) }
    requires thin { grip.slot ≡ None }
    ensures seat { IsSeatOf shared.now seat.new }
    ensures clear { IsClear (view seat.new) }
    ensures told { Lengthens (view seat.old) (view seat.new) [] }
    ensures made { MatchOption result ((FAT_SLOTS ≤ (view seat.new).slots) × KeepsEach (view seat.old) (view seat.new)) (Fattens (view seat.new) grip) }
    ensures grips { KeepsOthers (view seat.old) (view seat.new) grip.object.0 }
{
    let word = thin_word(shared, seat, grip);
    match shared.inflate(seat, grip.object, word) {
        None => None,
        Some((slot, _word)) => Some(Grip {
            object: grip.object,
            count: grip.count,
            number: grip.number,
            slot: Some(slot),
        }),
    }
}

// The lock word of a thin monitor that the seat holds.
fn thin_word(shared: &Shared, seat: &Seat, grip: Grip) -> LockWord
    requires seat { IsSeatOf shared.now seat.now }
    requires keeps { Keeps (view seat.now) grip }
    requires thin { grip.slot ≡ None }
    ensures word { result ≡ Thin ((lane_of seat.now.view).0 + 1) (grip.count - 1) grip.number }
    ensures holds { HoldsThin seat.now.view grip.object result }
{
    let _last = shared.last();
    LockWord::thin(
        u16::from(seat.lane().0) + 1,
        (grip.count - 1) as u8,
        grip.number,
    )
}

// The fat word of a monitor that the seat holds.
pub(crate) fn fat_word(shared: &Shared, seat: &Seat, grip: Grip, slot: u32) -> FatWord
    requires seat { IsSeatOf shared.now seat.now }
    requires keeps { Keeps (view seat.now) grip }
    requires fat { grip.slot ≡ Some slot }
    ensures word { result ≡ Held ((lane_of seat.now.view).0 + 1) (grip.count - 1) grip.number }
    ensures holds { HoldsFat seat.now.view grip.object slot result }
    ensures slot { slot < FAT_SLOTS }
{
    let _last = shared.last();
    FatWord::held(seat.lane().0 + 1, (grip.count - 1) as u16, grip.number)
}
