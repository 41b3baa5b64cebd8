//! A heap in which each object guards one field, of the same number and with first value 10, and a session of each lane.

ghost use Rattle.std.specs.Prelude.{◌≡◌, ◌+◌, ◌<◌, ◌≤◌, ◌^◌, IfSome, OnSome, All, map, vec_len};
ghost use Rattle.monitor.specs.Seats.{IsSeatOf, fresh_views};
ghost use Rattle.session.specs.Sessions.{IsSessionOf};

use guards::{Schema, SchemaBuilder};
use monitor::{Seat, Shared};
use session::{Session, open_sessions};
use std::alloc::Global;
use thread_rings::{Receiver, RingRecords};

/// A bound on release numbers that no test comes near.
pub const LAST: u64 = 1_000_000;

// Declares an object, and the field that it guards.
fn declare_named(builder: &mut SchemaBuilder, name: &str) -> Option<()> {
    let object = builder.object(name).ok()?;
    builder.field(object, name, object, 10).ok()?;
    Some(())
}

fn declare_all(alloc: Global, builder: &mut SchemaBuilder, objects: u32) -> Option<()> {
    for number in 0..objects {
        let name = format!(in alloc; "o{number}").ok()?;
        declare_named(builder, name.as_str())?;
    }
    Some(())
}

/// The schema that was declared.
pub fn built(builder: SchemaBuilder) -> Option<Schema> {
    match builder.build() {
        Ok(schema) => Some(schema),
        Err((builder, _why)) => {
            drop(builder);
            None
        }
    }
}

/// So many objects and fields.
pub fn declare(alloc: Global, objects: u32) -> Option<Schema> {
    let mut builder = SchemaBuilder::new(alloc);
    match declare_all(alloc, &mut builder, objects) {
        Some(()) => built(builder),
        None => {
            drop(builder);
            None
        }
    }
}

/// A heap.
#[derive(Drop)]
pub struct Heap {
    /// Its shared words.
    pub shared: Shared,
    /// A session of each lane.
    pub sessions: Vec<Session>,
    /// The other ends of their rings.
    pub rings: Vec<Receiver>,
}

// The shared words and the seats of a heap of this schema, each of whose fields has 10.
fn share(alloc: Global, schema: Schema, lanes: u8, last: u64) -> Option<(Shared, Vec<Seat>)>
    requires lanes { lanes ≤ 32 }
    requires last { last < 2 ^ 40 }
    ensures views { IfSome result (λ r. map (λ s. s.view) r.1.items ≡ fresh_views r.0.plan lanes) }
    ensures seats { IfSome result (λ r. All (IsSeatOf r.0) r.1.items) }
{
    let Ok(heap) = vec![in alloc; 10u64; schema.fields() as usize] else {
        drop(schema);
        return None;
    };
    let opened = Shared::new(alloc, schema, heap.as_slice(), lanes, last);
    drop(heap);
    match opened {
        Ok((shared, seats, helper)) => {
            drop(helper);
            Some((shared, seats))
        }
        Err(_) => None,
    }
}

/// A heap of this schema, each of whose fields has 10. A lane holds `capacity` records. `None` is want of memory.
pub fn open_heap(alloc: Global, schema: Schema, lanes: u8, last: u64, capacity: u32) -> Option<Heap>
    requires lanes { lanes ≤ 32 }
    requires last { last < 2 ^ 40 }
    requires capacity { (2000 ≤ capacity) × (capacity ≤ 1048576) }
    ensures { IfSome result (λ r. All (IsSessionOf r.shared) r.sessions.items) }
{
    let (shared, seats) = share(alloc, schema, lanes, last)?;
    match open_sessions(alloc, &shared, seats, capacity, RingRecords::usual()) {
        Ok((sessions, rings)) => Some(Heap {
            shared,
            sessions,
            rings,
        }),
        Err(_) => {
            drop(shared);
            None
        }
    }
}

/// Takes out the last session.
pub fn take_last(shared: &Shared, sessions: &mut Vec<Session>) -> Option<Session>
    requires seats { All (IsSessionOf shared.now) sessions.old.items }
    ensures seat { IfSome result (IsSessionOf shared.now) }
    ensures left { All (IsSessionOf shared.now) sessions.new.items }
    ensures fewer { OnSome result (vec_len sessions.new + 1 ≡ vec_len sessions.old) }
{
    sessions.pop()
}

/// Takes out the last two, in their order.
pub fn take_two(shared: &Shared, sessions: &mut Vec<Session>) -> Option<(Session, Session)>
    requires seats { All (IsSessionOf shared.now) sessions.old.items }
    ensures seats { IfSome result (λ r. IsSessionOf shared.now r.0 × IsSessionOf shared.now r.1) }
{
    let b = take_last(shared, sessions)?;
    let a = take_last(shared, sessions)?;
    Some((a, b))
}
