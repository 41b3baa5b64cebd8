//! Heaps that run on disks in memory, whose threads' lanes hold 4,000 records.

ghost use Rattle.std.specs.Prelude.{◌≤◌, ◌+◌, IfSome, All};
ghost use Rattle.block_disk.specs.Memory.{device_of};
ghost use Rattle.thread_heap.specs.Joined.{IsHelping, IsJoinedWith};

use block_disk::{Disk, MemDisk};
use durable::Store;
use guards::{Schema, SchemaBuilder};
use session::Session;
use std::alloc::Global;
use thread_heap::{RunningHeap, open};
use thread_rings::RingRecords;

// A bound on release numbers that no test comes near.
const LAST: u64 = 1_000_000;

/// The disk on which this heap begins.
pub fn new_disk(alloc: Global) -> Option<MemDisk> {
    MemDisk::new(alloc, 80_384).ok()
}

// An object, which guards a field of its own that begins with 0. `None` is a refusal.
fn declare_object(builder: &mut SchemaBuilder, name: &str) -> Option<()> {
    let object = builder.object(name).ok()?;
    match builder.field(object, name, object, 0) {
        Ok(_) => Some(()),
        Err(_) => None,
    }
}

fn declare_objects(builder: &mut SchemaBuilder) -> Option<()> {
    declare_object(builder, "o0")?;
    declare_object(builder, "o1")?;
    declare_object(builder, "o2")
}

// The schema that was declared.
fn built(builder: SchemaBuilder) -> Option<Schema> {
    match builder.build() {
        Ok(schema) => Some(schema),
        Err((builder, _why)) => {
            drop(builder);
            None
        }
    }
}

/// Three objects, each of which guards the field of its number. The fields begin with 0. Object 0 is for all, and object i + 1 for
/// lane i.
pub fn declare(alloc: Global) -> Option<Schema> {
    let mut builder = SchemaBuilder::new(alloc);
    match declare_objects(&mut builder) {
        Some(()) => built(builder),
        None => {
            drop(builder);
            None
        }
    }
}

// A heap of this schema, with so many lanes of so many records, the first of which are so many threads', begins to run. `None` is a
// refusal.
fn begin<D: Disk + Drop>(
    alloc: Global,
    disk: D,
    schema: Schema,
    lanes: u8,
    threads: u8,
    capacity: u32,
) -> Option<RunningHeap<D>>
    requires some { 1 ≤ threads }
    requires within { threads ≤ lanes }
    requires most { lanes ≤ threads + 1 }
    ensures joined { IfSome result (λ o. All (IsJoinedWith o.shared o.helper) o.sessions.items) }
    ensures helping { IfSome result (λ o. IsHelping D.device o.shared o.helper) }
{
    let made = match Store::format(alloc, disk, &schema, lanes, capacity) {
        Ok(made) => made,
        Err((disk, _why)) => {
            drop(disk);
            drop(schema);
            return None;
        }
    };
    let heap = match open(alloc, schema, made, threads, LAST, RingRecords::usual()) {
        Ok(heap) => heap,
        Err((disk, _why)) => {
            drop(disk);
            return None;
        }
    };
    Some(heap)
}

/// The disk of the heap, which ends.
pub fn disk_of<D: Disk + Drop>(heap: RunningHeap<D>) -> D {
    let RunningHeap {
        shared,
        sessions,
        helper,
    } = heap;
    drop(sessions);
    drop(shared);
    helper.into_store().into_disk()
}

// Takes the session of the last lane of which it is there.
fn take_last<D: Disk + Drop>(heap: &mut RunningHeap<D>) -> Option<Session>
    requires joined { All (IsJoinedWith heap.old.shared heap.old.helper) heap.old.sessions.items }
    ensures session { IfSome result (IsJoinedWith heap.new.shared heap.new.helper) }
    ensures joined { All (IsJoinedWith heap.new.shared heap.new.helper) heap.new.sessions.items }
    ensures others { (x : Session) → IsJoinedWith heap.old.shared heap.old.helper x → IsJoinedWith heap.new.shared heap.new.helper x }
    ensures helping { IsHelping D.device heap.old.shared heap.old.helper → IsHelping D.device heap.new.shared heap.new.helper }
{
    heap.sessions.pop()
}

// A heap of one lane, whose session is apart.
fn only_lane<D: Disk + Drop>(heap: RunningHeap<D>) -> Option<(RunningHeap<D>, Session)>
    requires joined { All (IsJoinedWith heap.shared heap.helper) heap.sessions.items }
    requires helping { IsHelping D.device heap.shared heap.helper }
    ensures joined { IfSome result (λ o. IsJoinedWith o.0.shared o.0.helper o.1) }
    ensures helping { IfSome result (λ o. IsHelping D.device o.0.shared o.0.helper) }
{
    let mut heap = heap;
    let session = take_last(&mut heap);
    Some(heap).zip(session)
}

/// A heap with one lane, which begins to run on this disk, and its session.
pub fn open_one<D: Disk + Drop>(alloc: Global, disk: D) -> Option<(RunningHeap<D>, Session)>
    ensures joined { IfSome result (λ o. IsJoinedWith o.0.shared o.0.helper o.1) }
    ensures helping { IfSome result (λ o. IsHelping D.device o.0.shared o.0.helper) }
{
    let schema = declare(alloc)?;
    match begin(alloc, disk, schema, 1, 1, 4_000) {
        Some(heap) => only_lane(heap),
        None => None,
    }
}

/// A heap of two lanes, and their sessions.
pub type TwoLanes = (RunningHeap<MemDisk>, Session, Session);

// Takes both sessions of a heap of two threads, of which they are there.
fn take_both<D: Disk + Drop>(heap: &mut RunningHeap<D>) -> Option<(Session, Session)>
    requires joined { All (IsJoinedWith heap.old.shared heap.old.helper) heap.old.sessions.items }
    ensures first { IfSome result (λ r. IsJoinedWith heap.new.shared heap.new.helper r.0) }
    ensures second { IfSome result (λ r. IsJoinedWith heap.new.shared heap.new.helper r.1) }
    ensures helping { IsHelping D.device heap.old.shared heap.old.helper → IsHelping D.device heap.new.shared heap.new.helper }
{
    let second = take_last(heap);
    let first = take_last(heap);
    first.zip(second)
}

// Its sessions are apart.
fn both_lanes<D: Disk + Drop>(heap: RunningHeap<D>) -> Option<(RunningHeap<D>, Session, Session)>
    requires joined { All (IsJoinedWith heap.shared heap.helper) heap.sessions.items }
    requires helping { IsHelping D.device heap.shared heap.helper }
    ensures first { IfSome result (λ o. IsJoinedWith o.0.shared o.0.helper o.1) }
    ensures second { IfSome result (λ o. IsJoinedWith o.0.shared o.0.helper o.2) }
    ensures helping { IfSome result (λ o. IsHelping D.device o.0.shared o.0.helper) }
{
    let mut heap = heap;
    let both = take_both(&mut heap);
    match Some(heap).zip(both) {
        Some((heap, sessions)) => Some((heap, sessions.0, sessions.1)),
        None => None,
    }
}

/// A heap of this schema, which begins to run on a disk of its own.
pub fn open_two(alloc: Global, schema: Schema) -> Option<TwoLanes>
    ensures first { IfSome result (λ o. IsJoinedWith o.0.shared o.0.helper o.1) }
    ensures second { IfSome result (λ o. IsJoinedWith o.0.shared o.0.helper o.2) }
    ensures helping { IfSome result (λ o. IsHelping device_of o.0.shared o.0.helper) }
{
    let Some(disk) = new_disk(alloc) else {
        drop(schema);
        return None;
    };
    match begin(alloc, disk, schema, 2, 2, 2_000) {
        Some(heap) => both_lanes(heap),
        None => None,
    }
}

/// A heap of two threads on an image of three lanes, the last of which is the helper's. It begins to run on this disk. Both sessions are
/// apart.
pub fn open_helped<D: Disk + Drop>(
    alloc: Global,
    disk: D,
) -> Option<(RunningHeap<D>, Session, Session)>
    ensures first { IfSome result (λ o. IsJoinedWith o.0.shared o.0.helper o.1) }
    ensures second { IfSome result (λ o. IsJoinedWith o.0.shared o.0.helper o.2) }
    ensures helping { IfSome result (λ o. IsHelping D.device o.0.shared o.0.helper) }
{
    let Some(schema) = declare(alloc) else {
        drop(disk);
        return None;
    };
    match begin(alloc, disk, schema, 3, 2, 2_000) {
        Some(heap) => both_lanes(heap),
        None => None,
    }
}
