//! What a session tells of itself, of its lane, and of monitors that it needn't hold.

use crate::error::SessionError;
use crate::session::Session;
use heap_model::{Lane, ObjectId};
use lock_word::{FatWord, LockWord};
use monitor::Shared;

impl Session {
    ghost use Rattle.std.specs.Prelude.{◌≡◌, ◌<◌};
    ghost use Rattle.session.specs.Calls.{Looks, ReadsStable};
    ghost use Rattle.session.specs.Sessions.{SameRing, HasRoomLeft, IsSessionOf, view_of, seat_of, ring_of};
    ghost use Rattle.session.specs.Logs.{sent_in, held_count, sections_ended};
    ghost use Rattle.monitor.specs.Views.{Stands};
    ghost use Rattle.thread_steps.specs.Views.{SeesHistory};
    ghost use Rattle.thread_rings.specs.Rings.{sent};

    /// How many sections have ended since the session was opened.
    pub fn sections(&self) -> u64
        // The answer is how many sections of the session have ended.
        ensures { result ≡ sections_ended (view_of self.now) }
    {
        self.parts.sections
    }

    /// The lane that it is of, numbered from 0.
    pub fn lane(&self) -> Lane
        ensures { result ≡ (view_of self.now).lane }
    {
        self.parts.seat.lane()
    }

    /// How many monitors it holds.
    pub fn holds(&self) -> u32
        ensures { result ≡ held_count (view_of self.now) }
    {
        self.parts.held.len() as u32
    }

    /// Sees the one history of all threads so far (JLS 17.1, 17.2). From then on [`stands`](Session::stands) names this history, or one
    /// that goes on from it, as does the next call of this. One load.
    pub fn see(&mut self, shared: &Shared)
        requires seat { IsSessionOf shared.now self.old }
        ensures seat { IsSessionOf shared.now self.new }
        ensures ring { SameRing self.old self.new }
        // The history that is seen is legal, has just what the session was told as its lane's part, and goes on from the one that it saw before.
        ensures told { SeesHistory (view_of self.old) (view_of self.new) }
    {
        thread_steps::see(shared, &mut self.parts.seat);
    }

    /// What the session was told stands in one legal history (JLS 17.1, 17.2), and what it has sent is the log of its lane's part
    /// there (Atlas, OOPSLA 2014). An open section has room for all that it may still log. This does nothing at run time.
    pub fn stands(&self)
        // What the session was told is its lane's part of one legal history: the history that it has seen, or one that goes on from it.
        ensures history { Stands (seat_of self.now).view }
        // What a session has sent is the log of what it was told, also while its thread waits.
        ensures sent { sent (ring_of self.now) ≡ sent_in (view_of self.now) }
        // A section that has begun has room in the ring and in the lane for all that it may still log.
        ensures room { 0 < held_count (view_of self.now) → HasRoomLeft self.now }
    {
        self.parts.seat.stands();
    }

    /// What the monitor's words say: its lock word and, where that is fat, the word of its slot. One load of each. The session
    /// needn't hold the monitor.
    ///
    /// Refused: [`UnknownObject`](SessionError::UnknownObject).
    pub fn look(
        &mut self,
        shared: &Shared,
        object: ObjectId,
    ) -> Result<(LockWord, Option<FatWord>), SessionError>
        requires seat { IsSessionOf shared.now self.old }
        ensures seat { IsSessionOf shared.now self.new }
        ensures ring { SameRing self.old self.new }
        // A look tells the words of the monitor at one moment of the history.
        ensures told { Looks shared.now self.old self.new object result }
    {
        if u64::from(object.0) >= thread_steps::objects(shared) {
            return Err(SessionError::UnknownObject);
        }
        let found = thread_steps::look(shared, &mut self.parts.seat, object);
        Ok((found.lock, found.fat))
    }

    /// How many sections of the lane were acknowledged at the helper's last publication, counted from the session's first; 0
    /// before the first. It never falls. One load.
    ///
    /// Whatever a crash leaves from the reading on, recovery keeps at least so many sections of the lane (`law_running::stable_law`).
    pub fn stable(&mut self, shared: &Shared) -> u64
        requires seat { IsSessionOf shared.now self.old }
        ensures seat { IsSessionOf shared.now self.new }
        ensures ring { SameRing self.old self.new }
        ensures told { ReadsStable self.old self.new result }
    {
        thread_steps::read_stable(shared, &mut self.parts.seat)
    }
}
