//! Heaps that hold one pool and nothing else, with a session of each lane. The pool's object has number 0, and so has the field
//! of its head; that of slot i has number i + 1.

ghost use Rattle.std.specs.Prelude.{◌≡◌, ◌<◌, ◌≤◌, IfSome, All, map};
ghost use Rattle.monitor.specs.Seats.{IsSeatOf, fresh_views};
ghost use Rattle.pool.specs.declared.pool.TheConstants.{MOST_SLOTS};
ghost use Rattle.session.specs.Sessions.{IsSessionOf};

use guards::{Schema, SchemaBuilder};
use heap_model::{FieldId, ObjectId};
use monitor::{Seat, Shared};
use pool::{MOST_SLOTS, Pool};
use session::{Session, open_sessions};
use std::alloc::{AllocError, Global};
use thread_rings::{Receiver, RingRecords};

/// The object that guards the pool.
pub const GUARD: ObjectId = ObjectId(0);

/// The field of the pool's head.
pub const HEAD: FieldId = FieldId(0);

/// The field of slot 0.
pub const SLOT: FieldId = FieldId(1);

// A bound on release numbers that no test comes near.
const LAST: u64 = 1_000_000;

// How many records each lane holds: more than any test sends.
const CAPACITY: u32 = 1_048_576;

/// A schema that declares the pool.
pub fn declare(alloc: Global, slots: u32) -> Option<(Schema, Pool)>
    requires some { 0 < slots }
    requires few { slots ≤ MOST_SLOTS }
{
    let mut builder = SchemaBuilder::new(alloc);
    let Ok(pool) = Pool::lay_out(&mut builder, "p", slots) else {
        drop(builder);
        return None;
    };
    match builder.build() {
        Ok(schema) => Some((schema, pool)),
        Err((builder, _why)) => {
            drop(builder);
            None
        }
    }
}

/// The values with which its fields begin.
pub fn first_values(alloc: Global, schema: &Schema) -> Result<Vec<u64>, AllocError> {
    let mut values = Vec::new(alloc);
    for field in 0..schema.fields() {
        values.push(schema.first(FieldId(field)))?;
    }
    Ok(values)
}

/// A heap with a pool.
#[derive(Drop)]
pub struct PoolHeap {
    /// Its shared words.
    pub shared: Shared,
    /// The pool.
    pub pool: Pool,
    /// The session of each lane.
    pub sessions: Vec<Session>,
    /// The other ends of their rings.
    pub rings: Vec<Receiver>,
}

// The shared words and the seats of a heap of this schema.
fn share(alloc: Global, schema: Schema, lanes: u8) -> Option<(Shared, Vec<Seat>)>
    requires lanes { lanes ≤ 32 }
    ensures views { IfSome result (λ r. map (λ s. s.view) r.1.items ≡ fresh_views r.0.plan lanes) }
    ensures seats { IfSome result (λ r. All (IsSeatOf r.0) r.1.items) }
{
    let Ok(values) = first_values(alloc, &schema) else {
        drop(schema);
        return None;
    };
    if schema.fields() as usize != values.len() {
        drop(values);
        drop(schema);
        return None;
    }
    let opened = Shared::new(alloc, schema, values.as_slice(), lanes, LAST);
    drop(values);
    match opened {
        Ok((shared, seats, helper)) => {
            drop(helper);
            Some((shared, seats))
        }
        Err(_) => None,
    }
}

/// A heap with a pool of so many slots, and so many lanes. `None` is want of memory.
pub fn open_pool(alloc: Global, slots: u32, lanes: u8) -> Option<PoolHeap>
    requires some { 0 < slots }
    requires few { slots ≤ MOST_SLOTS }
    requires lanes { lanes ≤ 32 }
    ensures seats { IfSome result (λ r. All (IsSessionOf r.shared) r.sessions.items) }
{
    let (schema, pool) = declare(alloc, slots)?;
    let (shared, seats) = share(alloc, schema, lanes)?;
    match open_sessions(alloc, &shared, seats, CAPACITY, RingRecords::usual()) {
        Ok((sessions, rings)) => Some(PoolHeap {
            shared,
            pool,
            sessions,
            rings,
        }),
        Err(_) => {
            drop(shared);
            None
        }
    }
}

/// Takes out the last session.
pub fn take_last(shared: &Shared, sessions: &mut Vec<Session>) -> Option<Session>
    requires seats { All (IsSessionOf shared.now) sessions.old.items }
    ensures seat { IfSome result (IsSessionOf shared.now) }
    ensures left { All (IsSessionOf shared.now) sessions.new.items }
{
    sessions.pop()
}

/// Takes out the last two, in their order.
pub fn take_two(shared: &Shared, sessions: &mut Vec<Session>) -> Option<(Session, Session)>
    requires seats { All (IsSessionOf shared.now) sessions.old.items }
    ensures seats { IfSome result (λ r. IsSessionOf shared.now r.0 × IsSessionOf shared.now r.1) }
{
    let b = take_last(shared, sessions)?;
    let a = take_last(shared, sessions)?;
    Some((a, b))
}

/// Takes all records that wait in the ring.
pub fn empty(ring: &mut Receiver) {
    for _ in 0..ring.slots() {
        let _ = ring.pop();
    }
}

/// The field's value, where the session may load it.
pub fn value_in(shared: &Shared, session: &mut Session, field: FieldId) -> Option<u64>
    requires seat { IsSessionOf shared.now session.old }
    ensures seat { IsSessionOf shared.now session.new }
{
    match session.load(shared, field) {
        Ok(value) => Some(value),
        Err(_) => None,
    }
}
