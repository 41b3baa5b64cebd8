//! What a thread that waits was told, and how its wait ends (JLS 17.2.1).

use crate::error::Still;
use crate::session::Session;
use crate::sights::{free_at, shown};
use crate::waiting::Waiting;
use heap_model::Record;
use monitor::Shared;
use thread_steps::Seen;

impl Waiting {
    ghost use Rattle.std.specs.Prelude.{◌≡◌, ◌<◌, true, IfErr, MatchResult};
    ghost use Rattle.thread_steps.specs.Views.{plan};
    ghost use Rattle.session.specs.Calls.{AsksToResume, IsFatSeen};
    ghost use Rattle.session.specs.Keeping.{LooksAgain, Retakes, TellsOfSet};
    ghost use Rattle.session.specs.Sessions.{SameRingResumed, SameRingStill, IsSessionOf, IsWaitingOf, view_waiting, seat_waiting, ring_waiting, awaited};
    ghost use Rattle.session.specs.Logs.{sent_in};
    ghost use Rattle.monitor.specs.Views.{Stands};
    ghost use Rattle.thread_rings.specs.Rings.{sent};

    /// What the thread was told is its lane's part of one legal history, and what it has sent is the log of that part
    /// ([`Session::stands`] says the same of one that doesn't wait). This does nothing at run time.
    pub fn stands(&self)
        // What the thread was told is its lane's part of one legal history: the history that it has seen, or one that goes on from it.
        ensures history { Stands (seat_waiting self.now).view }
        // What a session has sent is the log of what it was told, also while its thread waits.
        ensures sent { sent (ring_waiting self.now) ≡ sent_in (view_waiting self.now) }
    {
        self.parts.seat.stands();
    }

    /// Takes the monitor again, by as many locks as before, if the thread was removed from its wait set and the monitor is
    /// free (JLS 17.2.1). It looks once, and tries once. Otherwise the thread waits on, and is told why.
    pub fn try_resume(self, shared: &Shared) -> Result<Session, (Waiting, Still)>
        requires seat { IsWaitingOf shared.now self }
        ensures seat { MatchResult result (IsSessionOf shared.now) (λ e. IsWaitingOf shared.now e.0) }
        ensures ring { MatchResult result (SameRingResumed self) (λ e. SameRingStill self e.0) }
        // A resume gives the thread its monitor back as before the wait. Or the thread waits on, and is told why: it
        // wasn't notified, or which word of the slot it met.
        ensures told { AsksToResume self result }
    {
        let mut waiting = self;
        if waiting.is_in_set(shared) {
            return Err((waiting, Still::InSet));
        }
        match waiting.look(shared) {
            Ok(number) => waiting.retake(shared, number),
            Err(seen) => Err((waiting, Still::Held(seen))),
        }
    }

    // Whether the thread is still in the wait set.
    fn is_in_set(&mut self, shared: &Shared) -> bool
        requires seat { IsWaitingOf shared.now self.old }
        ensures seat { IsWaitingOf shared.now self.new }
        ensures ring { SameRingStill self.old self.new }
        ensures object { awaited self.new ≡ awaited self.old }
        ensures told { TellsOfSet self.old self.new result }
    {
        if self.removed {
            return false;
        }
        if thread_steps::poll_wait(shared, &mut self.parts.seat, self.object) {
            return true;
        }
        self.removed = true;
        false
    }

    // The number of the monitor, if a look shows it free and not worn.
    fn look(&mut self, shared: &Shared) -> Result<u64, Seen>
        requires seat { IsWaitingOf shared.now self.old }
        requires removed { self.old.removed ≡ true }
        ensures seat { IsWaitingOf shared.now self.new }
        ensures ring { SameRingStill self.old self.new }
        ensures object { awaited self.new ≡ awaited self.old }
        ensures removed { self.new.removed ≡ true }
        ensures told { LooksAgain self.old self.new (plan shared.now).last result }
        ensures fat { IfErr result IsFatSeen }
    {
        let found = thread_steps::look(shared, &mut self.parts.seat, self.object);
        let Some(free) = free_at(&found) else {
            return Err(shown(&found));
        };
        if free.number >= thread_steps::last(shared) {
            return Err(shown(&found));
        }
        Ok(free.number)
    }

    // Takes the monitor again, if it is still free at this number.
    fn retake(self, shared: &Shared, number: u64) -> Result<Session, (Waiting, Still)>
        requires seat { IsWaitingOf shared.now self }
        requires removed { self.removed ≡ true }
        requires number { number < (plan shared.now).last }
        ensures seat { MatchResult result (IsSessionOf shared.now) (λ e. IsWaitingOf shared.now e.0) }
        ensures ring { MatchResult result (SameRingResumed self) (λ e. SameRingStill self e.0) }
        ensures object { IfErr result (λ e. awaited e.0 ≡ awaited self) }
        ensures told { Retakes self number result }
    {
        let Waiting {
            parts,
            object,
            count,
            slot,
            removed,
        } = self;
        let mut parts = parts;
        match thread_steps::try_retake(shared, &mut parts.seat, object, count, slot, number) {
            Ok(grip) => {
                parts.held.insert(0, grip);
                parts.records += 1;
                parts.place += 1;
                parts.ring.push(Record::Acq { object, number });
                Ok(Session { parts })
            }
            Err(seen) => {
                let waiting = Waiting {
                    parts,
                    object,
                    count,
                    slot,
                    removed,
                };
                Err((waiting, Still::Held(seen)))
            }
        }
    }
}
