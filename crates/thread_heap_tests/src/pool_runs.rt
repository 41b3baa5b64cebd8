//! Sections that take and give slots of a pool, the helper's rounds between them, and crashes at each call of the device.

ghost use Rattle.std.specs.Prelude.{◌≡◌, IfSome};
ghost use Rattle.block_disk.specs.Memory.{device_of};
ghost use Rattle.pool.specs.Knowing.{home_of};
ghost use Rattle.thread_heap.specs.Joined.{IsHelping};
ghost use Rattle.session.specs.Sessions.{IsSessionOf};

use crate::heap::{disk_of, open_two};
use crate::images::recover_either;
use crate::pool_lists::WholeList;
use crate::work::serve;
use block_disk::MemDisk;
use guards::{Schema, SchemaBuilder};
use heap_model::ObjectId;
use monitor::Shared;
use pool::{InSection, Pool};
use session::Session;
use std::alloc::Global;
use thread_heap::RunningHeap;
use trim_helper::Helper;

// The object that guards the pool of four slots: field 0 is its head, and field i + 1 that of slot i.
const GUARD: ObjectId = ObjectId(0);

// An object beside it, with field 5.
const OTHER: ObjectId = ObjectId(1);

// The pool, and an object beside it.
fn lay_out(builder: &mut SchemaBuilder) -> Option<Pool>
    ensures slots { IfSome result (λ p. p.slots ≡ 4) }
{
    let Ok(pool) = Pool::lay_out(builder, "p", 4) else {
        return None;
    };
    let other = builder.object("other").ok()?;
    builder.field(other, "x", other, 0).ok()?;
    Some(pool)
}

// The schema that was laid out, beside its pool.
fn built(builder: SchemaBuilder, pool: Pool) -> Option<(Schema, Pool)>
    requires slots { pool.slots ≡ 4 }
    ensures slots { IfSome result (λ r. r.1.slots ≡ 4) }
{
    match builder.build() {
        Ok(schema) => Some((schema, pool)),
        Err((builder, _why)) => {
            drop(builder);
            None
        }
    }
}

// The schema of these.
fn declare(alloc: Global) -> Option<(Schema, Pool)>
    ensures slots { IfSome result (λ r. r.1.slots ≡ 4) }
{
    let mut builder = SchemaBuilder::new(alloc);
    match lay_out(&mut builder) {
        Some(pool) => built(builder, pool),
        None => {
            drop(builder);
            None
        }
    }
}

// Takes a slot by an even turn, and gives one by an odd turn, if it is taken.
fn take_or_give(pool: &Pool, cells: &mut InSection<'_>, turn: u32)
    requires slots { pool.now.slots ≡ 4 }
    ensures home { home_of cells.new ≡ home_of cells.old }
{
    if turn % 2 == 0 {
        let _ = pool.take(cells);
    } else {
        let _ = pool.give(cells, turn % 4);
    }
}

// The same in a section of its own.
fn take_turn(shared: &Shared, pool: &Pool, session: Session, turn: u32) -> Session
    requires seat { IsSessionOf shared.now session }
    requires slots { pool.now.slots ≡ 4 }
    ensures seat { IsSessionOf shared.now result }
{
    let mut session = session;
    let _ = session.try_enter(shared, GUARD);
    let mut cells = InSection::new(session, shared);
    take_or_give(pool, &mut cells, turn);
    let mut session = cells.into_session();
    let _ = session.exit(shared, GUARD);
    session
}

// Which sessions take turns.
#[derive(Clone, Copy, PartialEq, Eq)]
enum Run {
    // The first alone.
    Alone,
    // Both, each turn a section of its own.
    ByTurns,
    // Both, where those of the first are part of one section that stays open.
    BesideOpen,
}

// So many turns, with a round of the helper after each.
fn take_turns(
    shared: &Shared,
    pool: &Pool,
    first: Session,
    second: Session,
    helper: &mut Helper<MemDisk>,
    run: Run,
    turns: u32,
)
    requires seats { IsSessionOf shared.now first × IsSessionOf shared.now second }
    requires slots { pool.now.slots ≡ 4 }
    requires helping { IsHelping device_of shared.now helper.old }
{
    let mut first = first;
    let mut second = second;
    if run == Run::BesideOpen {
        let _ = first.try_enter(shared, OTHER);
    }
    for turn in 0..turns {
        first = take_turn(shared, pool, first, turn);
        if run != Run::Alone {
            second = take_turn(shared, pool, second, turn / 2);
        }
        let _ = serve(shared, helper);
    }
    drop(first);
    drop(second);
}

// The disk of the heap after these turns.
fn play(
    heap: RunningHeap<MemDisk>,
    first: Session,
    second: Session,
    pool: &Pool,
    run: Run,
    turns: u32,
) -> MemDisk
    requires seats { IsSessionOf heap.shared first × IsSessionOf heap.shared second }
    requires slots { pool.now.slots ≡ 4 }
    requires helping { IsHelping device_of heap.shared heap.helper }
{
    let mut heap = heap;
    take_turns(
        &heap.shared,
        pool,
        first,
        second,
        &mut heap.helper,
        run,
        turns,
    );
    disk_of(heap)
}

// The same of a heap that begins to run, and all of whose slots are free.
fn played(alloc: Global, run: Run, turns: u32) -> Option<MemDisk> {
    let (schema, pool) = declare(alloc)?;
    match open_two(alloc, schema) {
        Some((heap, first, second)) => Some(play(heap, first, second, &pool, run, turns)),
        None => None,
    }
}

// How many calls of the device there are before the first turn.
fn calls_before(alloc: Global) -> Option<u64> {
    match played(alloc, Run::Alone, 0) {
        Some(disk) => Some(disk.stops()),
        None => None,
    }
}

// How many calls eight turns make, and whether a crash at each leaves a whole list: with all that wasn't synced lost, and with all
// of it kept.
fn found(alloc: Global, run: Run) -> Option<(u64, bool)> {
    let before = calls_before(alloc)?;
    match played(alloc, run, 8) {
        Some(disk) => {
            let calls = disk.stops().saturating_sub(before);
            Some((calls, recover_either(alloc, &disk, before, &WholeList)))
        }
        None => None,
    }
}

// Each lane is a thread's, so a round takes two commits. It makes a write for each record and for each field that it acknowledges a store
// to, 2 for each of two controls, and 4 syncs (docs/FORMAT.md). A turn that takes or gives a slot logs 4 records, and stores to the head
// and to the slot's field; one that is refused logs 2.
//
// Turns 0, 2, 4 and 6 take the slots 0, 1, 2 and 1, which turn 5 gives; what turns 1, 3 and 7 are to give isn't taken.
const CALLS_ALONE: u64 = 14 + 10 + 14 + 10 + 14 + 14 + 14 + 10;

#[test]
fn a_crash_after_any_section_leaves_a_whole_list(rt: HostRuntime) {
    assert!(rt; found(rt.alloc(), Run::Alone) == Some((CALLS_ALONE, true)));
}

// The second session takes 1, takes it again once the first has given it, gives it, finds it free, takes 3, takes 1 once that is
// given, gives 3, and finds it free. The first finds the list empty by turn 6. Where both store to the same slot's field it is written
// home once.
const CALLS_BY_TURNS: u64 = 19 + 18 + 19 + 12 + 19 + 18 + 16 + 12;

#[test]
fn so_does_one_while_two_take_turns(rt: HostRuntime) {
    assert!(rt; found(rt.alloc(), Run::ByTurns) == Some((CALLS_BY_TURNS, true)));
}

// The section that stays open has one record more, by which it began. All sections after it take the pool's object after it has, so they
// depend on it, and none is acknowledged: no cell is written. What is left of a round is its records, two controls and 4 syncs.
const CALLS_BESIDE_OPEN: u64 = 17 + 16 + 16 + 12 + 16 + 16 + 14 + 12;

#[test]
fn so_does_one_beside_an_open_section(rt: HostRuntime) {
    assert!(rt; found(rt.alloc(), Run::BesideOpen) == Some((CALLS_BESIDE_OPEN, true)));
}
