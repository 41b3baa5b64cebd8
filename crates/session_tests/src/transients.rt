//! Transient fields: they are loaded and stored as others are, and no record of theirs is sent.

ghost use Rattle.std.specs.Prelude.{All};
ghost use Rattle.session.specs.Sessions.{IsSessionOf};

use crate::calls::{Call, Row, follow, make, value_in};
use crate::heap::{LAST, built, open_heap, take_last, take_two};
use guards::{Schema, SchemaBuilder};
use heap_model::{FieldId, ObjectId, Record};
use monitor::Shared;
use session::{Session, SessionError};
use std::alloc::Global;
use thread_rings::Receiver;

const OBJECT: ObjectId = ObjectId(0);

// The persistent field.
const KEPT: FieldId = FieldId(0);

// The transient one.
const CACHED: FieldId = FieldId(1);

// An object that guards a persistent and a transient field of its own.
fn declare(alloc: Global) -> Option<Schema> {
    let mut builder = SchemaBuilder::new(alloc);
    match declare_both(&mut builder) {
        Some(()) => built(builder),
        None => {
            drop(builder);
            None
        }
    }
}

fn declare_both(builder: &mut SchemaBuilder) -> Option<()> {
    let object = builder.object("o").ok()?;
    builder.field(object, "kept", object, 10).ok()?;
    builder.transient(object, "cached", object, 10).ok()?;
    Some(())
}

// Whether the calls go so, and the object is left after them; and what the two fields have before that.
type Told = (bool, [Option<u64>; 2]);

// Makes the calls of a section but its exit.
fn told_of(shared: &Shared, session: &mut Session, rows: &[Row]) -> Told
    requires seat { IsSessionOf shared.now session.old }
    ensures seat { IsSessionOf shared.now session.new }
{
    let are_so = follow(shared, session, rows);
    let kept = value_in(shared, session, KEPT);
    let cached = value_in(shared, session, CACHED);
    let left = make(shared, session, Call::Exit(OBJECT));
    (are_so && left.is_ok(), [kept, cached])
}

fn told_of_last(shared: &Shared, sessions: &mut Vec<Session>, rows: &[Row]) -> Option<Told>
    requires seats { All (IsSessionOf shared.now) sessions.old.items }
{
    let mut session = take_last(shared, sessions)?;
    Some(told_of(shared, &mut session, rows))
}

// The same of a fresh heap.
fn told_of_one(alloc: Global, rows: &[Row]) -> Option<Told> {
    let mut heap = open_heap(alloc, declare(alloc)?, 1, LAST, 4_000)?;
    let told = told_of_last(&heap.shared, &mut heap.sessions, rows);
    drop(heap);
    told
}

const STORE: [Row; 2] = [
    (Call::Enter(OBJECT), 1, Ok(())),
    (Call::Store(CACHED, 31), 1, Ok(())),
];

const NO_STORE: [Row; 1] = [(Call::Enter(OBJECT), 1, Ok(()))];

// The first records that wait in the ring of the first lane.
fn first_records(rings: &mut [Receiver]) -> Option<[Option<Record>; 4]> {
    let ring = rings.get_mut(0)?;
    Some([ring.pop(), ring.pop(), ring.pop(), ring.pop()])
}

// What two sessions find, and what the first one has sent.
type Sent = ([Told; 2], Option<[Option<Record>; 4]>);

// The first session stores to the transient field, and then the second one loads.
fn told_and_sent(
    shared: &Shared,
    sessions: &mut Vec<Session>,
    rings: &mut [Receiver],
) -> Option<Sent>
    requires seats { All (IsSessionOf shared.now) sessions.old.items }
{
    let (mut a, mut b) = take_two(shared, sessions)?;
    let own = told_of(shared, &mut a, &STORE);
    let other = told_of(shared, &mut b, &NO_STORE);
    Some(([own, other], first_records(rings)))
}

// The same of a fresh heap.
fn told_of_both(alloc: Global) -> Option<Sent> {
    let mut heap = open_heap(alloc, declare(alloc)?, 2, LAST, 4_000)?;
    let told = told_and_sent(&heap.shared, &mut heap.sessions, &mut heap.rings);
    drop(heap);
    told
}

// The other thread loads what the first one stored, and the ring has the take and the release alone.
#[test]
fn a_transient_store_is_loaded_and_not_sent(rt: HostRuntime) {
    let told = (true, [Some(10), Some(31)]);
    let take = Record::Acq {
        object: OBJECT,
        number: 0,
    };
    let release = Record::Rel {
        object: OBJECT,
        number: 0,
    };
    let sent = [Some(take), Some(release), None, None];
    assert!(rt; told_of_both(rt.alloc()) == Some(([told; 2], Some(sent))));
}

// 999 transient stores, 998 persistent ones, and one more; then both fields at once, and the transient one twice.
const FULL_SECTION: [Row; 6] = [
    (Call::Enter(OBJECT), 1, Ok(())),
    (Call::Store(CACHED, 3), 999, Ok(())),
    (Call::Store(KEPT, 4), 998, Ok(())),
    (Call::Store(KEPT, 1), 1, Err(SessionError::SectionFull)),
    (
        Call::StoreTwo(KEPT, 1, CACHED, 1),
        1,
        Err(SessionError::SectionFull),
    ),
    (Call::StoreTwo(CACHED, 1, CACHED, 2), 1, Ok(())),
];

#[test]
fn transient_stores_fill_no_section(rt: HostRuntime) {
    let told = (true, [Some(4), Some(2)]);
    assert!(rt; told_of_one(rt.alloc(), &FULL_SECTION) == Some(told));
}

// The 998th persistent store goes with a transient one.
const ONE_OF_EACH: [Row; 3] = [
    (Call::Enter(OBJECT), 1, Ok(())),
    (Call::Store(KEPT, 1), 997, Ok(())),
    (Call::StoreTwo(KEPT, 5, CACHED, 6), 1, Ok(())),
];

#[test]
fn a_store_to_one_of_each_needs_one_record(rt: HostRuntime) {
    let told = (true, [Some(5), Some(6)]);
    assert!(rt; told_of_one(rt.alloc(), &ONE_OF_EACH) == Some(told));
}
