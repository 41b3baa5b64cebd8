//! Loads and stores of a session.

ghost use Rattle.std.specs.Prelude.{◌≡◌, ◌<◌};
ghost use Rattle.thread_steps.specs.Views.{plan};
ghost use Rattle.session.specs.Calls as stores;

use crate::error::{SessionError, seldom};
use crate::session::Session;
use heap_model::{FieldId, Record, SECTION_RECORDS};
use monitor::Shared;

impl Session {
    ghost use Rattle.std.specs.Prelude.{◌≡◌, ◌+◌, ◌<◌, ◌≤◌, length, true, false};
    ghost use Rattle.heap_model.specs.declared.limits.TheConstants.{SECTION_RECORDS};
    ghost use Rattle.thread_steps.specs.Views.{plan, IsHeld};
    ghost use Rattle.session.specs.Calls.{Loads, StoresAs, records_of};
    ghost use Rattle.session.specs.Keeping.{Writes};
    ghost use Rattle.session.specs.Sessions.{SameRing, IsSessionOf, view_of};

    /// Loads a field. One load.
    ///
    /// Refused, in this order: [`UnknownField`](SessionError::UnknownField); [`NotHeld`](SessionError::NotHeld) where the
    /// session doesn't hold the monitor of the field's guard.
    #[inline(always)]
    pub fn load(&mut self, shared: &Shared, field: FieldId) -> Result<u64, SessionError>
        requires seat { IsSessionOf shared.now self.old }
        ensures seat { IsSessionOf shared.now self.new }
        ensures ring { SameRing self.old self.new }
        // A load tells the event of its value. A refused load tells nothing.
        ensures told { Loads shared.now self.old self.new field result }
    {
        if u64::from(field.0) >= thread_steps::fields(shared) {
            seldom();
            return Err(SessionError::UnknownField);
        }
        let guard = thread_steps::guard(shared, field);
        let Some(_grip) = self.grip_on(guard) else {
            seldom();
            return Err(SessionError::NotHeld);
        };
        let value = thread_steps::read_field(shared, &mut self.parts.seat, field);
        self.parts.seat.stands();
        monitor::load_law();
        Ok(value)
    }

    /// Stores a field, and sends the record; of a transient field there is none. One swap.
    ///
    /// Refused, in this order: [`UnknownField`](SessionError::UnknownField); [`NotHeld`](SessionError::NotHeld) where the
    /// session doesn't hold the monitor of the field's guard; [`SectionFull`](SessionError::SectionFull), but for a transient
    /// field.
    #[inline(always)]
    pub fn store(&mut self, shared: &Shared, field: FieldId, value: u64) -> Result<(), SessionError>
        requires seat { IsSessionOf shared.now self.old }
        ensures seat { IsSessionOf shared.now self.new }
        ensures ring { SameRing self.old self.new }
        // A store tells the value that it found and the one that it left; a refused store tells nothing.
        ensures told { StoresAs shared.now self.old self.new field value result }
    {
        if u64::from(field.0) >= thread_steps::fields(shared) {
            seldom();
            return Err(SessionError::UnknownField);
        }
        let Some(_grip) = self.grip_on(thread_steps::guard(shared, field)) else {
            seldom();
            return Err(SessionError::NotHeld);
        };
        if !thread_steps::is_logged(shared, field) {
            self.write_alone(shared, field, value);
            return Ok(());
        }
        if self.parts.records + self.parts.held.len() as u64 + 1 > SECTION_RECORDS {
            seldom();
            return Err(SessionError::SectionFull);
        }
        self.write(shared, field, value);
        Ok(())
    }

    // Writes a field whose guard is held, and pushes its record where logs keep its stores.
    pub(crate) fn write_either(&mut self, shared: &Shared, field: FieldId, value: u64) -> u64
        requires seat { IsSessionOf shared.now self.old }
        requires field { field.0 < (plan shared.now).fields }
        requires held { IsHeld (view_of self.old) ((plan shared.now).guard field.0) }
        requires some { 0 < length self.old.parts.held.items }
        requires short { self.old.parts.records + length self.old.parts.held.items + records_of (plan shared.now) field ≤ SECTION_RECORDS }
        ensures { Writes shared.now self.old self.new field result value (records_of (plan shared.now) field) }
    {
        if thread_steps::is_logged(shared, field) {
            self.write(shared, field, value)
        } else {
            self.write_alone(shared, field, value)
        }
    }

    // Writes a field whose guard is held, and pushes its record. Returns the value before.
    #[inline(always)]
    fn write(&mut self, shared: &Shared, field: FieldId, value: u64) -> u64
        requires seat { IsSessionOf shared.now self.old }
        requires field { field.0 < (plan shared.now).fields }
        requires logged { (plan shared.now).is_logged field.0 ≡ true }
        requires held { IsHeld (view_of self.old) ((plan shared.now).guard field.0) }
        requires some { 0 < length self.old.parts.held.items }
        requires short { self.old.parts.records + length self.old.parts.held.items + 1 ≤ SECTION_RECORDS }
        ensures { Writes shared.now self.old self.new field result value 1 }
    {
        let before = thread_steps::write_field(shared, &mut self.parts.seat, field, value);
        self.parts.records += 1;
        self.parts.place += 1;
        self.parts.ring.push(Record::Put {
            field,
            before,
            after: value,
        });
        before
    }

    // Writes a transient field whose guard is held: it makes no record. Returns the value before.
    #[inline(always)]
    fn write_alone(&mut self, shared: &Shared, field: FieldId, value: u64) -> u64
        requires seat { IsSessionOf shared.now self.old }
        requires field { field.0 < (plan shared.now).fields }
        requires transient { (plan shared.now).is_logged field.0 ≡ false }
        requires held { IsHeld (view_of self.old) ((plan shared.now).guard field.0) }
        ensures { Writes shared.now self.old self.new field result value 0 }
    {
        thread_steps::write_field(shared, &mut self.parts.seat, field, value)
    }
}

// How many records a store to the field makes.
pub(crate) fn records_of(shared: &Shared, field: FieldId) -> u64
    requires { field.0 < (plan shared.now).fields }
    ensures { result ≡ stores.records_of (plan shared.now) field }
{
    u64::from(thread_steps::is_logged(shared, field))
}
