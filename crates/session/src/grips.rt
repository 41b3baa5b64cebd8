//! The monitors that a thread holds, in an array.

ghost use Rattle.std.specs.Prelude.{◌≡◌, ◌+◌, ◌<◌, ◌^◌, ◌==◌, ◌∷◌, Some, None, IfSome, MatchOption, length, if◌then◌else◌};
ghost use Rattle.session.specs.declared.limits.TheConstants.{MOST_HELD};
ghost use Rattle.session.specs.Grips.{grip_in, place_in, with_grip, without_grip};

use crate::limits::MOST_HELD;
use crate::session::Session;
use arrayvec::ArrayVec;
use heap_model::ObjectId;
use thread_steps::Grip;

// The place of the grip on the object, or the length.
#[inline(always)]
fn place_of(held: &[Grip], object: ObjectId) -> usize
    ensures { result ≡ place_in object.0 held.now }
{
    for place in 0..held.len() {
        if held[place].object.0 == object.0 {
            return place;
        }
    }
    held.len()
}

/// The grip on the object, with its place.
#[inline(always)]
#[tactic(auto, using(crate::proofs::GripLists::place_grip, crate::proofs::GripLists::place_none))]
pub fn grip_for(held: &[Grip], object: ObjectId) -> Option<(usize, Grip)>
    ensures found { MatchOption result (grip_in object.0 held.now ≡ None) (λ r. grip_in object.0 held.now ≡ Some r.1) }
    ensures place { IfSome result (λ r. r.0 ≡ place_in object.0 held.now) }
{
    let place = place_of(held, object);
    if place < held.len() {
        Some((place, held[place]))
    } else {
        None
    }
}

/// Puts a grip before the others. One or two are put down without turning the array.
#[inline(always)]
pub fn put_first(held: &mut ArrayVec<Grip, MOST_HELD>, grip: Grip)
    requires { length held.old.items < MOST_HELD }
    ensures { held.new.items ≡ grip ∷ held.old.items }
{
    if held.len() > 1 {
        held.insert(0, grip);
        return;
    }
    match held.pop() {
        None => held.push(grip),
        Some(second) => {
            held.push(grip);
            held.push(second);
        }
    }
}

/// Puts the grip in the place of the one on its object.
#[tactic(auto, using(crate::proofs::GripLists::place_set, crate::proofs::GripLists::place_absent))]
pub fn put(held: &mut ArrayVec<Grip, MOST_HELD>, grip: Grip)
    ensures { held.new.items ≡ with_grip grip held.old.items }
{
    let place = place_of(held.as_slice(), grip.object);
    if place < held.len() {
        held[place] = grip;
    }
}

/// Takes out the grip on the object, which is at this place. It turns the array only where three or more are held.
#[inline(always)]
pub fn take_at(held: &mut ArrayVec<Grip, MOST_HELD>, _object: ObjectId, place: usize)
    requires { (place ≡ place_in _object.0 held.old.items) × (place < length held.old.items) }
    ensures { held.new.items ≡ without_grip _object.0 held.old.items }
{
    if held.len() > 2 {
        held.remove(place);
        return;
    }
    if place + 1 < held.len() {
        let Some(second) = held.pop() else {
            return;
        };
        held.pop();
        held.push(second);
    } else {
        held.pop();
    }
}

/// A grip like it. What is called out of line gets one of its own, so that the grip that was found stays in registers.
#[inline(always)]
pub fn like(grip: Grip) -> Grip
    ensures { result ≡ grip }
{
    Grip {
        object: grip.object,
        count: grip.count,
        number: grip.number,
        slot: grip.slot,
    }
}

/// Takes the grip on the object out, if there is one.
#[tactic(auto, using(crate::proofs::GripLists::without_absent))]
pub fn take_out(held: &mut ArrayVec<Grip, MOST_HELD>, object: ObjectId)
    ensures { held.new.items ≡ without_grip object.0 held.old.items }
{
    let place = place_of(held.as_slice(), object);
    if place < held.len() {
        take_at(held, object, place);
    }
}

/// The records of the open section and the sections that have ended, once a release was logged that leaves so many monitors.
#[inline(always)]
pub fn after_release(left: usize, records: u64, sections: u64) -> (u64, u64)
    requires { (records + 1 < 2 ^ 64) × (sections + 1 < 2 ^ 64) }
    ensures records { result.0 ≡ if left == 0 then 0 else records + 1 }
    ensures sections { result.1 ≡ if left == 0 then sections + 1 else sections }
{
    if left == 0 {
        (0, sections + 1)
    } else {
        (records + 1, sections)
    }
}

impl Session {
    ghost use Rattle.std.specs.Prelude.{◌≡◌, IfSome, MatchOption};
    ghost use Rattle.session.specs.Grips.{place_in};
    ghost use Rattle.session.specs.Keeping.{HasGrip, HasNoGrip};
    ghost use Rattle.session.specs.Sessions.{view_of};

    // The grip on the object, if there is one, with its place.
    #[inline(always)]
    pub(crate) fn find(&self, object: ObjectId) -> Option<(usize, Grip)>
        ensures found { MatchOption result (HasNoGrip self.now object) (λ r. HasGrip self.now object r.1) }
        ensures place { IfSome result (λ r. r.0 ≡ place_in object.0 self.now.parts.held.items) }
    {
        grip_for(self.parts.held.as_slice(), object)
    }

    // The grip on the object, if there is one.
    #[inline(always)]
    pub(crate) fn grip_on(&self, object: ObjectId) -> Option<Grip>
        ensures { MatchOption result (HasNoGrip self.now object) (HasGrip self.now object) }
    {
        match self.find(object) {
            None => None,
            Some((_place, grip)) => Some(grip),
        }
    }
}
