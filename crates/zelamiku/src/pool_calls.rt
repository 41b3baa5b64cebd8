//! The calls of a pool, on the session of a handle.
ghost use Rattle.std.specs.Prelude.{◌≡◌, ◌≢◌, ◌<◌, ◌≤◌, ◌+◌, Some, length};
ghost use Rattle.std.specs.Result.{result_unwrap_or};
ghost use Rattle.pool.specs.declared.pool.TheConstants.{MOST_SLOTS};
ghost use Rattle.zelamiku.specs.Handles.{holding};
ghost use Rattle.zelamiku.specs.PoolDoors.{AreFreeAnywhere, ArePoolFields, GivesAt, LaysOutAt, TakesAt, pool_field, pool_refusal, pool_status};
ghost use Rattle.zelamiku.specs.SessionDoors.{AnswersAs, OfSession, Stays};
ghost use Rattle.zelamiku.specs.declared.status.TheConstants.{OK};

use crate::session_calls::no_session;
use crate::state::{Inner, Open};
use crate::status;
use crate::words::Field;
use heap_model::FieldId;
use host_heap::HostedSession;
use pool::{MOST_SLOTS, Pool, PoolError};
use session::SessionError;

/// No slot.
pub const NO_SLOT: u32 = u32::MAX;

/// Takes a slot of the pool: its number, or [`NO_SLOT`], and the status.
pub fn take(state: &mut Inner, head: u32, slots: u32) -> (u32, u32)
    ensures told { AnswersAs (TakesAt head slots result.0) (Some state.old) (Some state.new) result.1 }
    ensures refused { result.1 ≢ OK → result.0 ≡ NO_SLOT }
{
    let found = state.take();
    let (open, slot, answer) = taken_of(found, head, slots);
    state.put(open);
    (slot, answer)
}

fn taken_of(found: Open, head: u32, slots: u32) -> (Open, u32, u32)
    ensures told { OfSession (Stays (TakesAt head slots result.1)) found (holding result.0) result.2 }
    ensures refused { result.2 ≢ OK → result.1 ≡ NO_SLOT }
{
    match found {
        Open::Session(session) => take_by(session, head, slots),
        other => {
            let answer = no_session(&other);
            (other, NO_SLOT, answer)
        }
    }
}

fn take_by(session: HostedSession, head: u32, slots: u32) -> (Open, u32, u32)
    ensures told { Stays (TakesAt head slots result.1) session (holding result.0) result.2 }
    ensures refused { result.2 ≢ OK → result.1 ≡ NO_SLOT }
{
    let Some(pool) = Pool::in_fields(FieldId(head), slots) else {
        return (Open::Session(session), NO_SLOT, status::UNKNOWN_FIELD);
    };
    let (session, answer) = session.take_slot(&pool);
    let (slot, answer) = slot_given(answer);
    (Open::Session(session), slot, answer)
}

fn slot_given(answer: Result<u32, PoolError<SessionError>>) -> (u32, u32)
    ensures slot { result.0 ≡ result_unwrap_or answer NO_SLOT }
    ensures status { result.1 ≡ pool_status answer }
    ensures refused { result.1 ≢ OK → result.0 ≡ NO_SLOT }
{
    match answer {
        Ok(slot) => (slot, status::OK),
        Err(refusal) => (NO_SLOT, of_pool(refusal)),
    }
}

/// Gives a slot back to the pool.
pub fn give(state: &mut Inner, head: u32, slots: u32, slot: u32) -> u32
    ensures told { AnswersAs (GivesAt head slots slot) (Some state.old) (Some state.new) result }
{
    let found = state.take();
    let (open, answer) = given_of(found, head, slots, slot);
    state.put(open);
    answer
}

fn given_of(found: Open, head: u32, slots: u32, slot: u32) -> (Open, u32)
    ensures { OfSession (Stays (GivesAt head slots slot)) found (holding result.0) result.1 }
{
    match found {
        Open::Session(session) => give_by(session, head, slots, slot),
        other => {
            let answer = no_session(&other);
            (other, answer)
        }
    }
}

fn give_by(session: HostedSession, head: u32, slots: u32, slot: u32) -> (Open, u32)
    ensures { Stays (GivesAt head slots slot) session (holding result.0) result.1 }
{
    let Some(pool) = Pool::in_fields(FieldId(head), slots) else {
        return (Open::Session(session), status::UNKNOWN_FIELD);
    };
    if slot >= slots {
        return (Open::Session(session), status::NOT_TAKEN);
    }
    let (session, answer) = session.give_slot(&pool, slot);
    (Open::Session(session), of_given(answer))
}

fn of_given(answer: Result<(), PoolError<SessionError>>) -> u32
    ensures { result ≡ pool_status answer }
{
    match answer {
        Ok(()) => status::OK,
        Err(refusal) => of_pool(refusal),
    }
}

// The status of a pool's refusal.
fn of_pool(refusal: PoolError<SessionError>) -> u32
    ensures { result ≡ pool_refusal refusal }
{
    match refusal {
        PoolError::Empty => status::POOL_EMPTY,
        PoolError::NotTaken => status::NOT_TAKEN,
        PoolError::Damaged => status::DAMAGED,
        PoolError::Cells(refusal) => status::of_session(refusal),
    }
}

/// Lays out the fields of a pool of this object.
pub fn lay_out(object: u32, fields: &mut [Field]) -> u32
    ensures laid { LaysOutAt object fields.old fields.new result }
    ensures free { result ≡ OK → AreFreeAnywhere fields.new }
{
    let count = fields.len();
    if count < 2 {
        return status::EMPTY;
    }
    if count > MOST_SLOTS as usize + 1 {
        return status::TOO_MANY;
    }
    write_fields(object, count as u32 - 1, fields);
    status::OK
}

fn write_fields(object: u32, slots: u32, fields: &mut [Field])
    requires count { length fields.old ≡ slots + 1 }
    requires some { 0 < slots }
    ensures each { ArePoolFields object slots fields.new }
    ensures free { AreFreeAnywhere fields.new }
{
    for (cell, field) in fields.iter_mut().enumerate() {
        *field = field_of(object, slots, cell as u32);
    }
    pool::free_law();
}

fn field_of(object: u32, slots: u32, cell: u32) -> Field
    requires { cell ≤ slots }
    ensures { result ≡ pool_field object slots cell }
{
    Field {
        owner: object,
        guard: object,
        first: pool::first_value(slots, cell),
        transient: 0,
    }
}
