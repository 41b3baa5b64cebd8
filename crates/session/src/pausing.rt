//! How a wait begins (JLS 17.2.1).

ghost use Rattle.std.specs.Prelude.{◌≡◌, ◌+◌, ◌<◌, ◌≤◌, ◌^◌, ◌↔◌, ◌⊎◌, IsTrue};
ghost use Rattle.heap_model.specs.declared.limits.TheConstants.{LAST_PLACE};

use crate::error::SessionError;
use crate::grips::{after_release, take_out};
use crate::room::{lane_has_room, ring_has_room};
use crate::session::Session;
use crate::waiting::Waiting;
use heap_model::{LAST_PLACE, ObjectId, Record, SECTION_RECORDS};
use monitor::Shared;
use thread_steps::Grip;

// Whether a wait can't be begun: its release would give the last number, or the next section would begin at the last place.
fn is_wait_worn(held: usize, place: u64, number: u64, last: u64) -> bool
    requires { (place + 1 < 2 ^ 64) × (number + 1 < 2 ^ 64) }
    ensures { IsTrue result ↔ ((last ≤ number + 1) ⊎ ((held ≡ 1) × (LAST_PLACE ≤ place + 1))) }
{
    if number + 1 >= last {
        return true;
    }
    if held == 1 {
        return place + 1 >= LAST_PLACE;
    }
    false
}

impl Session {
    ghost use Rattle.std.specs.Prelude.{◌≡◌, ◌+◌, ◌<◌, length, [], ◌∷◌, MatchResult};
    ghost use Rattle.heap_model.specs.declared.event.Event.TheVariants as event;
    ghost use Rattle.thread_steps.specs.Views.{KeepsEach, Lengthens};
    ghost use Rattle.session.specs.Calls.{AsksToWait, IsQuiet, IsWaitWorn};
    ghost use Rattle.session.specs.Sessions.{SameRing, SameRingWaiting, IsSessionOf, IsWaitingOf, view_of, view_waiting, awaited, free_of, free_waiting};
    ghost use Rattle.session.specs.Keeping.{AsksForGrip, FindsFat, FindsRoom, HasGrip, HasRoomToWait, LooksAtRing, MayWait, hold_of};
    ghost use Rattle.session.specs.Steps.{RefusesFat};

    /// Joins the monitor's wait set and frees the monitor, whatever the count of its locks, which comes back with it (JLS
    /// 17.2.1). The section ends here where no other monitor is held. The monitor gets fat, if it isn't.
    ///
    /// Refused, in this order, and then the session comes back:
    /// - [`UnknownObject`](SessionError::UnknownObject);
    /// - [`NotHeld`](SessionError::NotHeld);
    /// - [`Behind`](SessionError::Behind), where the section would end, with the wait's record counted;
    /// - [`SectionFull`](SessionError::SectionFull), where the section goes on: the acquire that follows and its release
    ///   count too;
    /// - [`NoFat`](SessionError::NoFat);
    /// - [`Worn`](SessionError::Worn), where the monitor would get the last number, or the next section would begin at the
    ///   last place.
    pub fn begin_wait(
        self,
        shared: &Shared,
        object: ObjectId,
    ) -> Result<Waiting, (Session, SessionError)>
        requires seat { IsSessionOf shared.now self }
        ensures seat { MatchResult result (IsWaitingOf shared.now) (λ e. IsSessionOf shared.now e.0) }
        ensures ring { MatchResult result (SameRingWaiting self) (λ e. SameRing self e.0) }
        // A wait is begun, with the thread in the wait set and the monitor free; or the session comes back, with
        // nothing told.
        ensures told { AsksToWait shared.now self object result }
    {
        let mut session = self;
        match session.prepare_wait(shared, object) {
            Ok(grip) => Ok(session.join(shared, grip)),
            Err(error) => Err((session, error)),
        }
    }

    // Whether the thread may wait for the monitor. If so, it is fat.
    fn prepare_wait(&mut self, shared: &Shared, object: ObjectId) -> Result<Grip, SessionError>
        requires seat { IsSessionOf shared.now self.old }
        ensures seat { IsSessionOf shared.now self.new }
        ensures ring { SameRing self.old self.new }
        ensures quiet { IsQuiet (view_of self.old) (view_of self.new) }
        ensures asked { AsksForGrip shared.now self.old self.new object result }
    {
        if u64::from(object.0) >= thread_steps::objects(shared) {
            return Err(SessionError::UnknownObject);
        }
        let Some(grip) = self.grip_on(object) else {
            return Err(SessionError::NotHeld);
        };
        match self.room_to_wait(shared) {
            Ok(()) => self.fatten_to_wait(shared, grip),
            Err(error) => Err(error),
        }
    }

    // Whether there is room for a wait.
    fn room_to_wait(&mut self, shared: &Shared) -> Result<(), SessionError>
        requires seat { IsSessionOf shared.now self.old }
        requires some { 0 < length self.old.parts.held.items }
        ensures seat { IsSessionOf shared.now self.new }
        ensures ring { SameRing self.old self.new }
        ensures quiet { IsQuiet (view_of self.old) (view_of self.new) }
        ensures grips { KeepsEach (view_of self.old) (view_of self.new) }
        ensures held { self.new.parts.held ≡ self.old.parts.held }
        ensures room { FindsRoom self.old self.new result }
        ensures ring_room { LooksAtRing self.old self.new result }
    {
        let count = self.parts.held.len();
        if count > 1 {
            if self.parts.records + count as u64 + 2 > SECTION_RECORDS {
                return Err(SessionError::SectionFull);
            }
            return Ok(());
        }
        if !ring_has_room(&mut self.parts.ring, SECTION_RECORDS as usize + 1) {
            return Err(SessionError::Behind);
        }
        if !lane_has_room(
            shared,
            &mut self.parts.seat,
            &mut self.parts.trimmed,
            self.parts.place,
            self.parts.capacity,
            SECTION_RECORDS + 1,
        ) {
            return Err(SessionError::Behind);
        }
        Ok(())
    }

    // The grip on the monitor, fat, unless the wait is refused.
    fn fatten_to_wait(&mut self, shared: &Shared, grip: Grip) -> Result<Grip, SessionError>
        requires seat { IsSessionOf shared.now self.old }
        requires found { HasGrip self.old grip.object grip }
        requires room { HasRoomToWait self.old.parts }
        ensures seat { IsSessionOf shared.now self.new }
        ensures ring { SameRing self.old self.new }
        ensures quiet { IsQuiet (view_of self.old) (view_of self.new) }
        ensures fat { FindsFat self.old self.new grip result }
        ensures free { free_of self.new ≡ free_of self.old }
    {
        if is_wait_worn(
            self.parts.held.len(),
            self.parts.place,
            grip.number,
            thread_steps::last(shared),
        ) {
            return Err(self.why_worn(shared, grip));
        }
        if let Some(_slot) = grip.slot {
            return Ok(grip);
        }
        match self.fatten(shared, grip) {
            Some(fat) => Ok(fat),
            None => Err(SessionError::NoFat),
        }
    }

    // Why a wait is refused whose release numbers are used up: that no slot is left comes first.
    fn why_worn(&mut self, shared: &Shared, grip: Grip) -> SessionError
        requires seat { IsSessionOf shared.now self.old }
        requires found { HasGrip self.old grip.object grip }
        requires worn { IsWaitWorn (view_of self.old) (hold_of grip) }
        ensures seat { IsSessionOf shared.now self.new }
        ensures ring { SameRing self.old self.new }
        ensures quiet { IsQuiet (view_of self.old) (view_of self.new) }
        ensures why { RefusesFat (view_of self.old) (view_of self.new) grip.object (hold_of grip) result }
        ensures free { free_of self.new ≡ free_of self.old }
    {
        if let Some(_slot) = grip.slot {
            return SessionError::Worn;
        }
        if thread_steps::has_slot(shared, &mut self.parts.seat) {
            return SessionError::Worn;
        }
        SessionError::NoFat
    }

    // Waits: the two steps, and their record.
    fn join(self, shared: &Shared, grip: Grip) -> Waiting
        requires seat { IsSessionOf shared.now self }
        requires may { MayWait self grip.object (hold_of grip) grip }
        ensures seat { IsWaitingOf shared.now result }
        ensures ring { SameRingWaiting self result }
        ensures object { awaited result ≡ grip.object }
        ensures told { Lengthens (view_of self) (view_waiting result) (event.Wait grip.object grip.number ∷ []) }
        ensures free { free_of self ≡ free_waiting result + 1 }
    {
        let Session { parts } = self;
        let mut parts = parts;
        let slot = grip.slot.unwrap();
        thread_steps::join_wait(shared, &mut parts.seat, grip);
        take_out(&mut parts.held, grip.object);
        let (records, sections) = after_release(parts.held.len(), parts.records, parts.sections);
        parts.records = records;
        parts.sections = sections;
        parts.place += 1;
        let freed = Record::WaitRel {
            object: grip.object,
            number: grip.number,
        };
        parts.ring.push_told(shared, &mut parts.seat, freed);
        Waiting {
            parts,
            object: grip.object,
            count: grip.count,
            slot,
            removed: false,
        }
    }
}
