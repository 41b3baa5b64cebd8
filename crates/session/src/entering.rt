//! First and further locks of a session (JLS 17.1).

use crate::error::{SessionError, seldom};
use crate::grips::{put, put_first};
use crate::limits::MOST_HELD;
use crate::room::{lane_has_room, ring_has_room};
use crate::session::Session;
use crate::sights::{first_grip, free_at, shown};
use heap_model::{LAST_PLACE, ObjectId, Record, SECTION_RECORDS};
use monitor::Shared;
use thread_steps::{FAT_LOCKS, Grip, THIN_LOCKS};

impl Session {
    ghost use Rattle.std.specs.Prelude.{◌≡◌, ◌+◌, ◌<◌, ◌≤◌, length, [], ◌∷◌, None, IfErr, MatchResult};
    ghost use Rattle.heap_model.specs.declared.event.Event.TheVariants as event;
    ghost use Rattle.heap_model.specs.declared.limits.TheConstants.{SECTION_RECORDS};
    ghost use Rattle.thread_steps.specs.Views.{plan, Lengthens, room_of};
    ghost use Rattle.session.specs.declared.limits.TheConstants.{MOST_HELD};
    ghost use Rattle.session.specs.Kept.{HasRoomIn};
    ghost use Rattle.session.specs.Logs.{held_count};
    ghost use Rattle.session.specs.Calls.{IsQuiet, IsLastingHeld, Tries, Begins, LeavesRing, Enters, EntersAgain, EntersFirst};
    ghost use Rattle.session.specs.Keeping.{HasGrip, HasNoGrip, MakesFat, SameNumbers, hold_of};
    ghost use Rattle.session.specs.Sessions.{SameRing, IsSessionOf, view_of, rooms_of, free_of};

    /// Takes the monitor, or one lock more of it (JLS 17.1). It looks once and, where that showed the monitor free, tries
    /// once; a lock more is one store. A first lock begins a section where nothing was held.
    ///
    /// Refused, in this order:
    /// - [`UnknownObject`](SessionError::UnknownObject);
    /// - [`Behind`](SessionError::Behind), where a section would begin;
    /// - [`SectionFull`](SessionError::SectionFull) and [`TooMany`](SessionError::TooMany), for a first lock inside a section;
    /// - [`TooDeep`](SessionError::TooDeep) and [`NoFat`](SessionError::NoFat), for a lock more;
    /// - [`Worn`](SessionError::Worn), where a section would begin at the last place, or the look showed the last number;
    /// - [`Held`](SessionError::Held), where the look or the try showed that another thread has the monitor, or had it.
    pub fn try_enter(&mut self, shared: &Shared, object: ObjectId) -> Result<(), SessionError>
        requires seat { IsSessionOf shared.now self.old }
        ensures seat { IsSessionOf shared.now self.new }
        ensures ring { SameRing self.old self.new }
        // An enter tells of the monitor and the section just what its answer says.
        ensures told { Enters shared.now self.old self.new object result }
    {
        if u64::from(object.0) >= thread_steps::objects(shared) {
            seldom();
            return Err(SessionError::UnknownObject);
        }
        match self.grip_on(object) {
            Some(grip) => self.enter_again(shared, grip),
            None => self.enter_first(shared, object),
        }
    }

    // One lock more, of a monitor that is held.
    #[inline(never)]
    pub(crate) fn enter_again(&mut self, shared: &Shared, grip: Grip) -> Result<(), SessionError>
        requires seat { IsSessionOf shared.now self.old }
        requires found { HasGrip self.old grip.object grip }
        ensures seat { IsSessionOf shared.now self.new }
        ensures ring { SameRing self.old self.new }
        ensures again { EntersAgain (view_of self.old) (view_of self.new) grip.object (hold_of grip) result }
    {
        if grip.count == FAT_LOCKS {
            return Err(SessionError::TooDeep);
        }
        if grip.slot.is_none() && grip.count == THIN_LOCKS {
            let Some(fat) = self.fatten(shared, grip) else {
                return Err(SessionError::NoFat);
            };
            self.nest(shared, fat);
        } else {
            self.nest(shared, grip);
        }
        Ok(())
    }

    // One lock more, for which the monitor's word has room.
    fn nest(&mut self, shared: &Shared, grip: Grip)
        requires seat { IsSessionOf shared.now self.old }
        requires found { HasGrip self.old grip.object grip }
        requires room { grip.count < room_of grip.slot }
        ensures seat { IsSessionOf shared.now self.new }
        ensures ring { SameRing self.old self.new }
        ensures told { Lengthens (view_of self.old) (view_of self.new) (event.NestedEnter grip.object ∷ []) }
    {
        let more = thread_steps::nest(shared, &mut self.parts.seat, grip);
        put(&mut self.parts.held, more);
    }

    // Makes a thin monitor fat, if a slot is left.
    #[inline(never)]
    pub(crate) fn fatten(&mut self, shared: &Shared, grip: Grip) -> Option<Grip>
        requires seat { IsSessionOf shared.now self.old }
        requires found { HasGrip self.old grip.object grip }
        requires thin { grip.slot ≡ None }
        ensures seat { IsSessionOf shared.now self.new }
        ensures ring { SameRing self.old self.new }
        ensures quiet { IsQuiet (view_of self.old) (view_of self.new) }
        ensures numbers { SameNumbers self.old.parts self.new.parts }
        ensures made { MakesFat self.new grip result }
    {
        let Some(fat) = thread_steps::inflate(shared, &mut self.parts.seat, grip) else {
            return None;
        };
        put(&mut self.parts.held, fat);
        Some(fat)
    }

    // A monitor that isn't held: a section's first, or one more.
    #[inline(always)]
    pub(crate) fn enter_first(
        &mut self,
        shared: &Shared,
        object: ObjectId,
    ) -> Result<(), SessionError>
        requires seat { IsSessionOf shared.now self.old }
        requires object { object.0 < (plan shared.now).objects }
        requires free { HasNoGrip self.old object }
        ensures seat { IsSessionOf shared.now self.new }
        ensures ring { SameRing self.old self.new }
        ensures first { EntersFirst (rooms_of self.old) (view_of self.old) (view_of self.new) object result }
        ensures ring_room { held_count (view_of self.old) ≡ 0 → LeavesRing self.old self.new result }
        ensures lasting { IfErr result (IsLastingHeld (view_of self.new) object) }
    {
        let count = self.parts.held.len();
        if count == 0 {
            return self.begin(shared, object);
        }
        if self.parts.records + count as u64 + 2 > SECTION_RECORDS {
            seldom();
            return Err(SessionError::SectionFull);
        }
        if count >= MOST_HELD {
            seldom();
            return Err(SessionError::TooMany);
        }
        self.take(shared, object)
    }

    // A section's first monitor.
    #[inline(always)]
    fn begin(&mut self, shared: &Shared, object: ObjectId) -> Result<(), SessionError>
        requires seat { IsSessionOf shared.now self.old }
        requires object { object.0 < (plan shared.now).objects }
        requires free { HasNoGrip self.old object }
        requires empty { self.old.parts.held.items ≡ [] }
        ensures seat { IsSessionOf shared.now self.new }
        ensures ring { SameRing self.old self.new }
        ensures begins { Begins (rooms_of self.old) (view_of self.old) (view_of self.new) object result }
        ensures ring_room { LeavesRing self.old self.new result }
        ensures lasting { IfErr result (IsLastingHeld (view_of self.new) object) }
    {
        if !ring_has_room(&mut self.parts.ring, SECTION_RECORDS as usize) {
            seldom();
            return Err(SessionError::Behind);
        }
        if !lane_has_room(
            shared,
            &mut self.parts.seat,
            &mut self.parts.trimmed,
            self.parts.place,
            self.parts.capacity,
            SECTION_RECORDS,
        ) {
            seldom();
            return Err(SessionError::Behind);
        }
        if self.parts.place >= LAST_PLACE {
            seldom();
            return Err(SessionError::Worn);
        }
        self.take(shared, object)
    }

    // A look, and a try where that showed the monitor free.
    #[inline(always)]
    fn take(&mut self, shared: &Shared, object: ObjectId) -> Result<(), SessionError>
        requires seat { IsSessionOf shared.now self.old }
        requires object { object.0 < (plan shared.now).objects }
        requires free { HasNoGrip self.old object }
        requires few { length self.old.parts.held.items < MOST_HELD }
        requires short { self.old.parts.records + length self.old.parts.held.items + 2 ≤ SECTION_RECORDS }
        requires room { HasRoomIn self.old.parts }
        ensures seat { IsSessionOf shared.now self.new }
        ensures ring { SameRing self.old self.new }
        ensures tries { Tries (view_of self.old) (view_of self.new) object result }
        ensures free { MatchResult result (λ _. free_of self.old ≤ free_of self.new + 1) (λ _. free_of self.old ≤ free_of self.new) }
        ensures lasting { IfErr result (IsLastingHeld (view_of self.new) object) }
    {
        let found = thread_steps::look(shared, &mut self.parts.seat, object);
        let Some(free) = free_at(&found) else {
            seldom();
            return Err(SessionError::Held(shown(&found)));
        };
        if free.number >= thread_steps::last(shared) {
            seldom();
            return Err(SessionError::Worn);
        }
        // The grip is made anew from what is known here, so that nothing of the answer but its kind is looked at.
        match thread_steps::try_take(shared, &mut self.parts.seat, object, free.slot, free.number) {
            Ok(_grip) => {
                put_first(&mut self.parts.held, first_grip(object, free));
                self.parts.records += 1;
                self.parts.place += 1;
                self.parts.ring.push(Record::Acq {
                    object,
                    number: free.number,
                });
                Ok(())
            }
            Err(seen) => {
                seldom();
                Err(SessionError::Held(seen))
            }
        }
    }
}
