//! The calls that may wait. No contract says how long they wait, nor which thread comes first.

use crate::error::{SessionError, seldom};
use crate::grips::like;
use crate::session::Session;
use crate::waiting::Waiting;
use heap_model::ObjectId;
use monitor::Shared;
use std::sync::Wait;
use std::thread;

impl Session {
    ghost use Rattle.std.specs.Prelude.{◌≡◌, ◌<◌, IfOk, MatchResult};
    ghost use Rattle.session.specs.Keeping.{HasNoGrip};
    ghost use Rattle.thread_steps.specs.Views.{plan, IsHeld};
    ghost use Rattle.session.specs.Logs.{held_count};
    ghost use Rattle.session.specs.Calls.{IsQuiet, EntersLater, EntersWaiting, IsFatOrFull, IsSettled, LeavesRing, WaitsFor, WaitsToEnter};
    ghost use Rattle.session.specs.Sessions.{SameRing, IsSessionOf, view_of, rooms_of, free_of};

    /// Takes the monitor, or one lock more of it, and waits while another thread holds it (JLS 17.1). If it waited, it makes
    /// the monitor fat, if it is thin and a slot is left.
    ///
    /// Refused as [`try_enter`](Session::try_enter) refuses, but never as held.
    #[inline(always)]
    pub fn enter<R: Wait>(
        &mut self,
        rt: &R,
        shared: &Shared,
        object: ObjectId,
    ) -> Result<(), SessionError>
        requires seat { IsSessionOf shared.now self.old }
        ensures seat { IsSessionOf shared.now self.new }
        ensures ring { SameRing self.old self.new }
        // An enter that waits tells what an enter does, with the looks before it. It is never refused because another
        // thread has the monitor.
        ensures told { WaitsToEnter shared.now self.old self.new object result }
    {
        if u64::from(object.0) >= thread_steps::objects(shared) {
            seldom();
            return Err(SessionError::UnknownObject);
        }
        match self.grip_on(object) {
            Some(grip) => self.enter_again(shared, like(grip)),
            None => self.enter_anew(rt, shared, object),
        }
    }

    // A monitor that isn't held: it tries once, and waits where another thread was seen to hold it.
    #[inline(always)]
    fn enter_anew<R: Wait>(
        &mut self,
        rt: &R,
        shared: &Shared,
        object: ObjectId,
    ) -> Result<(), SessionError>
        requires seat { IsSessionOf shared.now self.old }
        requires object { object.0 < (plan shared.now).objects }
        requires free { HasNoGrip self.old object }
        ensures seat { IsSessionOf shared.now self.new }
        ensures ring { SameRing self.old self.new }
        ensures settled { IsSettled result }
        ensures first { EntersWaiting (rooms_of self.old) (view_of self.old) (view_of self.new) object result }
        ensures ring_room { held_count (view_of self.old) ≡ 0 → LeavesRing self.old self.new result }
    {
        match self.enter_first(shared, object) {
            Ok(()) => Ok(()),
            Err(SessionError::Held(_)) => self.enter_waiting(rt, shared, object),
            Err(error) => Err(error),
        }
    }

    // A monitor that isn't held, and that another thread was seen to want: it tries until the answer is another than that the
    // monitor is held, and then makes it fat.
    #[inline(never)]
    fn enter_waiting<R: Wait>(
        &mut self,
        rt: &R,
        shared: &Shared,
        object: ObjectId,
    ) -> Result<(), SessionError>
        requires seat { IsSessionOf shared.now self.old }
        requires object { object.0 < (plan shared.now).objects }
        requires free { HasNoGrip self.old object }
        ensures seat { IsSessionOf shared.now self.new }
        ensures ring { SameRing self.old self.new }
        ensures settled { IsSettled result }
        ensures first { EntersLater (rooms_of self.old) (view_of self.old) (view_of self.new) object result }
        ensures fat { IfOk result (λ done. IsFatOrFull (view_of self.new) object) }
        ensures ring_room { held_count (view_of self.old) ≡ 0 → LeavesRing self.old self.new result }
    {
        for _ in rt.forever() {
            match self.enter_first(shared, object) {
                Ok(()) => {
                    self.make_fat(shared, object);
                    return Ok(());
                }
                Err(SessionError::Held(_)) => {}
                Err(error) => return Err(error),
            }
            thread::yield_now();
        }
        unreachable!()
    }

    // Makes the monitor, if it is thin, fat where a slot is left.
    fn make_fat(&mut self, shared: &Shared, object: ObjectId)
        requires seat { IsSessionOf shared.now self.old }
        requires held { IsHeld (view_of self.old) object.0 }
        ensures seat { IsSessionOf shared.now self.new }
        ensures ring { SameRing self.old self.new }
        ensures quiet { IsQuiet (view_of self.old) (view_of self.new) }
        ensures free { free_of self.new ≡ free_of self.old }
        ensures fat { IsFatOrFull (view_of self.new) object }
    {
        let Some(grip) = self.grip_on(object) else {
            return;
        };
        if grip.slot.is_none() {
            let _ = self.fatten(shared, grip);
        }
    }

    /// Frees the monitor, and waits until the thread was notified and has taken it again: [`begin_wait`](Session::begin_wait),
    /// and then [`try_resume`](Waiting::try_resume) until it answers a session (JLS 17.2.1).
    ///
    /// Refused as `begin_wait` refuses, and then the session comes back.
    pub fn wait<R: Wait>(
        self,
        rt: &R,
        shared: &Shared,
        object: ObjectId,
    ) -> Result<Session, (Session, SessionError)>
        requires seat { IsSessionOf shared.now self }
        ensures seat { MatchResult result (IsSessionOf shared.now) (λ e. IsSessionOf shared.now e.0) }
        ensures ring { MatchResult result (SameRing self) (λ e. SameRing self e.0) }
        // A whole wait tells that it began, then looks alone, and then that the thread has the monitor again. Or it is
        // refused, and the session comes back.
        ensures told { WaitsFor shared.now self object result }
    {
        match self.begin_wait(shared, object) {
            Ok(waiting) => Ok(waiting.resume(rt, shared)),
            Err(refused) => Err(refused),
        }
    }
}

impl Waiting {
    ghost use Rattle.thread_steps.specs.Views.{View};
    ghost use Rattle.session.specs.Calls.{OnlyLooks, Resumes};
    ghost use Rattle.session.specs.Sessions.{SameRingResumed, IsSessionOf, IsWaitingOf, view_of, view_waiting, awaited};

    // Waits until the thread was notified and has taken the monitor again.
    fn resume<R: Wait>(self, rt: &R, shared: &Shared) -> Session
        requires seat { IsWaitingOf shared.now self }
        ensures seat { IsSessionOf shared.now result }
        ensures ring { SameRingResumed self result }
        ensures resumes { (u : View) × OnlyLooks (view_waiting self) u (awaited self) × Resumes u (view_of result) (awaited self) }
    {
        let mut waiting = self;
        for _ in rt.forever() {
            match waiting.try_resume(shared) {
                Ok(session) => return session,
                Err((still, _why)) => waiting = still,
            }
            thread::yield_now();
        }
        unreachable!()
    }
}
