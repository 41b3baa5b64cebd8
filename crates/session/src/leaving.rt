//! Exits of a session (JLS 17.1).

use crate::error::{SessionError, seldom};
use crate::grips::{after_release, like, put, take_at};
use crate::session::Session;
use heap_model::{ObjectId, Record};
use monitor::Shared;
use thread_steps::Grip;

impl Session {
    ghost use Rattle.std.specs.Prelude.{◌≡◌, ◌<◌, [], ◌∷◌};
    ghost use Rattle.heap_model.specs.declared.event.Event.TheVariants as event;
    ghost use Rattle.thread_steps.specs.Views.{Lengthens};
    ghost use Rattle.session.specs.Grips.{place_in};
    ghost use Rattle.session.specs.Keeping.{HasGrip};
    ghost use Rattle.session.specs.Calls.{Exits};
    ghost use Rattle.session.specs.Sessions.{SameRing, IsSessionOf, view_of};

    /// Gives one lock back, and with the last one the monitor (JLS 17.1). One store. The section ends with the last monitor.
    ///
    /// Refused, in this order: [`UnknownObject`](SessionError::UnknownObject); [`NotHeld`](SessionError::NotHeld).
    #[inline(always)]
    pub fn exit(&mut self, shared: &Shared, object: ObjectId) -> Result<(), SessionError>
        requires seat { IsSessionOf shared.now self.old }
        ensures seat { IsSessionOf shared.now self.new }
        ensures ring { SameRing self.old self.new }
        // An exit tells what it leaves of the monitor, and nothing else.
        ensures told { Exits shared.now self.old self.new object result }
    {
        if u64::from(object.0) >= thread_steps::objects(shared) {
            seldom();
            return Err(SessionError::UnknownObject);
        }
        let Some((place, grip)) = self.find(object) else {
            seldom();
            return Err(SessionError::NotHeld);
        };
        if grip.count > 1 {
            self.unnest(shared, like(grip));
        } else {
            self.release(shared, grip, place);
        }
        Ok(())
    }

    // One lock less, which isn't the last.
    #[inline(never)]
    fn unnest(&mut self, shared: &Shared, grip: Grip)
        requires seat { IsSessionOf shared.now self.old }
        requires found { HasGrip self.old grip.object grip }
        requires several { 1 < grip.count }
        ensures seat { IsSessionOf shared.now self.new }
        ensures ring { SameRing self.old self.new }
        ensures told { Lengthens (view_of self.old) (view_of self.new) (event.NestedExit grip.object ∷ []) }
    {
        let less = thread_steps::unnest(shared, &mut self.parts.seat, grip);
        put(&mut self.parts.held, less);
    }

    // The last exit. The grip is at this place.
    #[inline(always)]
    fn release(&mut self, shared: &Shared, grip: Grip, place: usize)
        requires seat { IsSessionOf shared.now self.old }
        requires found { HasGrip self.old grip.object grip }
        requires place { place ≡ place_in grip.object.0 self.old.parts.held.items }
        requires last { grip.count ≡ 1 }
        ensures seat { IsSessionOf shared.now self.new }
        ensures ring { SameRing self.old self.new }
        ensures told { Lengthens (view_of self.old) (view_of self.new) (event.Exit grip.object grip.number ∷ []) }
    {
        thread_steps::release(shared, &mut self.parts.seat, grip);
        take_at(&mut self.parts.held, grip.object, place);
        let (records, sections) = after_release(
            self.parts.held.len(),
            self.parts.records,
            self.parts.sections,
        );
        self.parts.records = records;
        self.parts.sections = sections;
        self.parts.place += 1;
        let freed = Record::Rel {
            object: grip.object,
            number: grip.number,
        };
        self.parts
            .ring
            .push_told(shared, &mut self.parts.seat, freed);
    }
}
