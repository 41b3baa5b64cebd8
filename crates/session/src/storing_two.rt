//! A store to two fields.

use crate::error::SessionError;
use crate::fields::records_of;
use crate::session::Session;
use heap_model::{FieldId, SECTION_RECORDS};
use monitor::Shared;

impl Session {
    ghost use Rattle.session.specs.TwoStores.{StoresBoth};
    ghost use Rattle.session.specs.Sessions.{SameRing, IsSessionOf};

    /// Stores `one` in the first field and then `two` in the second, and sends the records of those that aren't transient; or,
    /// refused, does neither. One field named twice takes `two`. Two swaps.
    ///
    /// Refused, in this order: [`UnknownField`](SessionError::UnknownField), for either; [`NotHeld`](SessionError::NotHeld)
    /// where the session doesn't hold the monitor of either field's guard; [`SectionFull`](SessionError::SectionFull), where
    /// the records don't fit, of which there are as many as persistent fields.
    pub fn store_two(
        &mut self,
        shared: &Shared,
        first: FieldId,
        one: u64,
        second: FieldId,
        two: u64,
    ) -> Result<(), SessionError>
        requires seat { IsSessionOf shared.now self.old }
        ensures seat { IsSessionOf shared.now self.new }
        ensures ring { SameRing self.old self.new }
        // Two stores are both told, in order, or neither is.
        ensures told { StoresBoth shared.now self.old self.new first second one two result }
    {
        let fields = thread_steps::fields(shared);
        if u64::from(first.0) >= fields || u64::from(second.0) >= fields {
            return Err(SessionError::UnknownField);
        }
        let Some(_grip) = self.grip_on(thread_steps::guard(shared, first)) else {
            return Err(SessionError::NotHeld);
        };
        let Some(_other) = self.grip_on(thread_steps::guard(shared, second)) else {
            return Err(SessionError::NotHeld);
        };
        let records = records_of(shared, first) + records_of(shared, second);
        if self.parts.records + self.parts.held.len() as u64 + records > SECTION_RECORDS {
            return Err(SessionError::SectionFull);
        }
        self.write_either(shared, first, one);
        self.write_either(shared, second, two);
        Ok(())
    }
}
