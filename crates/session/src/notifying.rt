//! How a session ends the waits of others (JLS 17.2.2).

use crate::error::SessionError;
use crate::session::Session;
use heap_model::{Lane, ObjectId};
use lock_word::WaitMask;
use monitor::Shared;

impl Session {
    ghost use Rattle.session.specs.Calls.{Notifies, NotifiesAll};
    ghost use Rattle.session.specs.Sessions.{SameRing, IsSessionOf};

    /// Takes one lane out of the monitor's wait set, whichever it is, and answers it; `None` where nobody waits (JLS 17.2.2). A
    /// load, and a fetch-and where a lane waits.
    ///
    /// Refused, in this order: [`UnknownObject`](SessionError::UnknownObject); [`NotHeld`](SessionError::NotHeld).
    pub fn notify(
        &mut self,
        shared: &Shared,
        object: ObjectId,
    ) -> Result<Option<Lane>, SessionError>
        requires seat { IsSessionOf shared.now self.old }
        ensures seat { IsSessionOf shared.now self.new }
        ensures ring { SameRing self.old self.new }
        // A notify tells which one lane left the wait set, if one did.
        ensures told { Notifies shared.now self.old self.new object result }
    {
        if u64::from(object.0) >= thread_steps::objects(shared) {
            return Err(SessionError::UnknownObject);
        }
        let Some(grip) = self.grip_on(object) else {
            return Err(SessionError::NotHeld);
        };
        Ok(thread_steps::notify_one(shared, &mut self.parts.seat, grip))
    }

    /// Takes all lanes out of the monitor's wait set, and answers them (JLS 17.2.2). One swap.
    ///
    /// Refused, in this order: [`UnknownObject`](SessionError::UnknownObject); [`NotHeld`](SessionError::NotHeld).
    pub fn notify_all(
        &mut self,
        shared: &Shared,
        object: ObjectId,
    ) -> Result<WaitMask, SessionError>
        requires seat { IsSessionOf shared.now self.old }
        ensures seat { IsSessionOf shared.now self.new }
        ensures ring { SameRing self.old self.new }
        // A notify of all tells which lanes left the wait set: all that were in it.
        ensures told { NotifiesAll shared.now self.old self.new object result }
    {
        if u64::from(object.0) >= thread_steps::objects(shared) {
            return Err(SessionError::UnknownObject);
        }
        let Some(grip) = self.grip_on(object) else {
            return Err(SessionError::NotHeld);
        };
        Ok(thread_steps::notify_all(shared, &mut self.parts.seat, grip))
    }
}
