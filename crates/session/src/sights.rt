//! What a look found.

ghost use Rattle.std.specs.Prelude.{◌≡◌, MatchOption, None};
ghost use Rattle.heap_model.specs.declared.event.Sight.TheVariants.{Found};
ghost use Rattle.lock_word.specs.Spelling.{sight_of, slot_named};
ghost use Rattle.thread_steps.specs.Views.{IsPaired, IsOwned};
ghost use Rattle.thread_steps.specs.Views.{View, slot_in, IsLasting, IsLastingSeen, IsOfSlot, IsWhole};
ghost use Rattle.heap_model.specs.declared.ids.ObjectId.{ObjectId};
ghost use Rattle.session.specs.Calls.{sight_in};

use heap_model::ObjectId;
use lock_word::{FatShape, Shape};
use thread_steps::{Grip, Seen, Sighted};

/// A monitor that nobody owns: its release number, and its fat slot.
#[derive(Clone, Copy, Debug, PartialEq, Eq)]
pub struct Free {
    pub number: u64,
    pub slot: Option<u32>,
}

/// Whether the monitor is free.
#[inline(always)]
pub fn free_at(found: &Sighted) -> Option<Free>
    requires { IsPaired found.now.lock found.now.fat }
    ensures { MatchOption result
        (IsOwned (sight_of found.now.lock found.now.fat))
        (λ free. (sight_of found.now.lock found.now.fat ≡ Found None 0 free.number) × (slot_named found.now.lock ≡ free.slot)) }
{
    let index = match found.lock.shape() {
        Shape::Free { number } => return Some(Free { number, slot: None }),
        Shape::Thin { .. } => return None,
        Shape::Fat { index, .. } => index,
    };
    match found.fat?.shape() {
        FatShape::Free { number } => Some(Free {
            number,
            slot: Some(index),
        }),
        FatShape::Held { .. } => None,
    }
}

/// The grip on a monitor that was taken as it was found.
#[inline(always)]
pub fn first_grip(object: ObjectId, free: Free) -> Grip
    ensures { result ≡ record { object = object; count = 1; number = free.number; slot = free.slot } }
{
    Grip {
        object,
        count: 1,
        number: free.number,
        slot: free.slot,
    }
}

/// The word that tells of the monitor.
pub fn shown(found: &Sighted) -> Seen
    requires { IsPaired found.now.lock found.now.fat }
    ensures sight { sight_in result ≡ sight_of found.now.lock found.now.fat }
    ensures lasting { (v : View) → (o : ObjectId) → IsLasting v o found.now.lock → IsLastingSeen v o result }
    ensures slot { (v : View) → (o : ObjectId) → IsWhole v o found.now.lock found.now.fat → IsOfSlot (slot_in o.0 v.fats) result }
{
    match found.fat {
        Some(word) => Seen::Fat(word),
        None => Seen::Lock(found.lock),
    }
}
