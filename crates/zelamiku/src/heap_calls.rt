//! The calls of a heap, on the heap of a handle.
ghost use Rattle.std.specs.Prelude.{◌≡◌, ◌≢◌, Some, None, IfOk, if◌then◌else◌};
ghost use Rattle.std.specs.Option.{option_copied};
ghost use Rattle.host_heap.specs.Opening.{Opens};
ghost use Rattle.zelamiku.specs.Handles.{Answers, holding, heap_held, session_held};
ghost use Rattle.zelamiku.specs.HeapDoors.{AcknowledgesAt, ClosesAt, HandsOne, HandsOutAt, HasAcknowledged, MakesCallAt, MakesHeap, RoundsAt, TellsNextAt, TellsWaitingAt, filled_of, found_of, nothing_found, rows_of, told_of, wanted_of};
ghost use Rattle.zelamiku.specs.HeapDoors as doors;
ghost use Rattle.zelamiku.specs.declared.status.TheConstants.{NONE_LEFT, OK};

use crate::slot::{Slot, put};
use crate::state::{Inner, Open};
use crate::status;
use crate::words::{Call, Field, Found};
use disk_deferred::{DeviceCall, HostCalls};
use heap_model::{Lane, ObjectId};
use host_heap::{AcknowledgedError, HostError, HostedHeap, HostedSession, NotClosed};
use image::GuardRow;
use law_hosted::host_law;
use recover::{Report, Versions};
use std::alloc::{AllocError, Global};
use thread_rings::RingRecords;

/// No bound on the records of a round.
pub const ALL: u64 = u64::MAX;

/// A heap of these objects and fields, for so many threads of C's, with rings of this room.
pub fn format(
    alloc: Global,
    objects: u32,
    fields: &[Field],
    lanes: u32,
    capacity: u32,
    threads: u32,
    ring: RingRecords,
) -> Result<HostedHeap, u32>
    ensures { MakesHeap objects fields.now lanes capacity threads ring result }
{
    let Ok(lanes) = u8::try_from(lanes) else {
        return Err(status::BAD_HEADER);
    };
    let Ok(rows) = rows_of(alloc, fields) else {
        return Err(status::NO_MEMORY);
    };
    match host_heap::format(
        alloc,
        objects,
        &rows,
        lanes,
        capacity,
        wanted_of(threads),
        ring,
    ) {
        Ok(heap) => Ok(heap),
        Err(refusal) => Err(status::of_host(refusal)),
    }
}

/// The heap that recovery finds in these bytes, for so many threads of C's, with rings of this room; and what it reports.
pub fn open(
    alloc: Global,
    image: &[u8],
    versions: Versions,
    threads: u32,
    ring: RingRecords,
) -> Result<(HostedHeap, Report), HostError>
    ensures { Opens versions (wanted_of threads) ring image.now result }
{
    host_heap::open(alloc, image, versions, wanted_of(threads), ring)
}

// How many threads C has, as the heap counts them.
fn wanted_of(threads: u32) -> u8
    ensures { result ≡ doors.wanted_of threads }
{
    threads.min(255) as u8
}

fn rows_of(alloc: Global, fields: &[Field]) -> Result<Vec<GuardRow>, AllocError>
    ensures { IfOk result (λ rows. rows.items ≡ rows_of fields.now) }
{
    let mut rows = Vec::new(alloc);
    for field in fields.iter().copied() {
        rows.push(row_of(field))?;
    }
    Ok(rows)
}

fn row_of(field: Field) -> GuardRow
    ensures { result ≡ doors.row_of field }
{
    GuardRow {
        guard: ObjectId(field.guard),
        owner: ObjectId(field.owner),
        first: field.first,
        transient: field.transient != 0,
    }
}

/// What C is told of a heap of which recovery reports this.
pub(crate) fn found_in(heap: &HostedHeap, report: &Report) -> Found
    ensures { result ≡ found_of heap.now report.now }
{
    let layout = heap.layout();
    Found {
        size: heap.size(),
        objects: layout.objects,
        fields: layout.fields,
        lanes: u32::from(layout.lanes),
        capacity: layout.capacity,
        threads: u32::from(heap.threads()),
        dropped: report.dropped.len() as u64,
        undone: u64::from(report.undone),
    }
}

/// Hands out a session, into the handle `place`.
pub fn session(alloc: Global, state: &mut Inner, place: &mut Slot) -> u32
    ensures told { Answers (HandsOutAt place.new.handle.state) (Some state.old) (Some state.new) result }
    ensures refused { result ≢ OK → place.new.handle.state ≡ place.old.handle.state }
{
    match &mut state.open {
        Open::Heap(heap) => hand_out(alloc, heap, place),
        Open::Closed(_) => status::CLOSED,
        Open::Stopped(_) => status::STOPPED,
        _ => status::WRONG_KIND,
    }
}

// The box comes first: a session that found no room would never come back, and its heap couldn't be closed.
fn hand_out(alloc: Global, heap: &mut HostedHeap, place: &mut Slot) -> u32
    ensures handed { HandsOne heap.old place.new.handle.state (heap_held heap.new) result }
    ensures refused { result ≢ OK → place.new.handle.state ≡ place.old.handle.state }
{
    let Ok(room) = Inner::boxed(alloc, Open::Nothing) else {
        return status::NO_MEMORY;
    };
    if let Some(session) = heap.session() {
        return put_session(alloc, place, room, session);
    }
    match heap.session_again() {
        Ok(Some(session)) => put_session(alloc, place, room, session),
        Ok(None) => status::NONE_LEFT,
        Err(_) => status::NO_MEMORY,
    }
}

// Puts a session into its box, and the box into the handle.
fn put_session(alloc: Global, place: &mut Slot, room: Box<Inner>, session: HostedSession) -> u32
    ensures handed { place.new.handle.state ≡ session_held session }
    ensures ok { result ≡ OK }
{
    let mut room = room;
    room.put(Open::Session(session));
    put(alloc, place, room);
    status::OK
}

/// The call that the host has to make next, with as many of its bytes as there is room for, and the status.
pub fn next_call(state: &mut Inner, bytes: &mut [u8]) -> (Call, u32)
    ensures told { Answers (TellsNextAt result.0 bytes.old bytes.new) (Some state.old) (Some state.new) result.1 }
    ensures refused { result.1 ≢ OK → result.0 ≡ told_of None }
    ensures kept { result.1 ≢ OK → bytes.new ≡ bytes.old }
{
    match &mut state.open {
        Open::Heap(heap) => {
            heap.fetch();
            (tell(heap.next_call(), bytes), status::OK)
        }
        Open::Closed(closed) => {
            closed.calls.fetch();
            (tell(closed.calls.next_call(), bytes), status::OK)
        }
        Open::Journal(journal) => {
            journal.fetch();
            (tell(journal.next_call(), bytes), status::OK)
        }
        Open::Stopped(_) => (no_call(), status::STOPPED),
        _ => (no_call(), status::WRONG_KIND),
    }
}

/// No call.
pub fn no_call() -> Call
    ensures { result ≡ told_of None }
{
    Call {
        kind: 0,
        at: 0,
        size: 0,
    }
}

fn tell(call: Option<&DeviceCall>, bytes: &mut [u8]) -> Call
    ensures call { result ≡ told_of (option_copied call.entry) }
    ensures bytes { bytes.new ≡ filled_of (option_copied call.entry) bytes.old }
{
    match call {
        None => no_call(),
        Some(DeviceCall::Sync) => Call {
            kind: 2,
            at: 0,
            size: 0,
        },
        Some(DeviceCall::Write { at, bytes: content }) => {
            let size = content.len().min(bytes.len());
            bytes[..size].copy_from_slice(&content[..size]);
            Call {
                kind: 1,
                at: *at,
                size: content.len() as u64,
            }
        }
    }
}

/// The host has made the call.
pub fn call_done(state: &mut Inner) -> u32
    ensures { Answers MakesCallAt (Some state.old) (Some state.new) result }
{
    match &mut state.open {
        Open::Heap(heap) => of_done(heap.done()),
        Open::Closed(closed) => of_done(closed.calls.done()),
        Open::Journal(journal) => of_done(journal.done()),
        Open::Stopped(_) => status::STOPPED,
        _ => status::WRONG_KIND,
    }
}

fn of_done(is_done: bool) -> u32
    ensures { result ≡ (if is_done then OK else NONE_LEFT) }
{
    if is_done {
        status::OK
    } else {
        status::NONE_LEFT
    }
}

/// How many groups of calls were handed over and aren't fetched yet, or 0, and the status.
pub fn waiting(state: &mut Inner) -> (u32, u32)
    ensures told { Answers (TellsWaitingAt result.0) (Some state.old) (Some state.new) result.1 }
    ensures refused { result.1 ≢ OK → result.0 ≡ 0 }
{
    match &mut state.open {
        Open::Heap(heap) => (counted(heap.waiting()), status::OK),
        Open::Closed(closed) => (counted(closed.calls.waiting()), status::OK),
        Open::Stopped(_) => (0, status::STOPPED),
        _ => (0, status::WRONG_KIND),
    }
}

fn counted(groups: usize) -> u32
    ensures { result ≡ doors.counted groups }
{
    groups.min(u32::MAX as usize) as u32
}

/// A round of the helper, of at most so many records, or of any number by [`ALL`]: how many it applied, or 0, and the status.
pub fn round(state: &mut Inner, most: u64) -> (u64, u32)
    ensures told { Answers (RoundsAt most result.0) (Some state.old) (Some state.new) result.1 }
    ensures refused { result.1 ≢ OK → result.0 ≡ 0 }
{
    match &mut state.open {
        Open::Heap(heap) => match heap.round(bound_of(most)) {
            Ok(applied) => (applied, status::OK),
            Err(refusal) => (0, status::of_round(refusal)),
        },
        Open::Closed(_) => (0, status::CLOSED),
        Open::Stopped(_) => (0, status::STOPPED),
        _ => (0, status::WRONG_KIND),
    }
}

fn bound_of(most: u64) -> Option<u64>
    ensures { result ≡ doors.bound_of most }
{
    if most == ALL { None } else { Some(most) }
}

/// How many sections of the lane are acknowledged, or 0, and the status.
pub fn acknowledged(state: &mut Inner, lane: u32) -> (u64, u32)
    ensures told { Answers (AcknowledgesAt lane result.0) (Some state.old) (Some state.new) result.1 }
    ensures refused { result.1 ≢ OK → result.0 ≡ 0 }
{
    match &mut state.open {
        Open::Heap(heap) => match acknowledged_of(heap, lane) {
            Ok(sections) => (sections, status::OK),
            Err(refusal) => (0, status::of_acknowledged(refusal)),
        },
        Open::Closed(_) => (0, status::CLOSED),
        Open::Stopped(_) => (0, status::STOPPED),
        _ => (0, status::WRONG_KIND),
    }
}

fn acknowledged_of(heap: &mut HostedHeap, lane: u32) -> Result<u64, AcknowledgedError>
    ensures { HasAcknowledged heap.old heap.new lane result }
{
    if lane >= u32::from(heap.threads()) {
        return Err(AcknowledgedError::BadLane);
    }
    host_law();
    heap.acknowledged(Lane(lane as u8))
}

/// Closes the heap.
pub fn close(state: &mut Inner) -> u32
    ensures { Answers ClosesAt (Some state.old) (Some state.new) result }
{
    let content = state.take();
    let (content, answer) = closed_of(content);
    state.put(content);
    answer
}

fn closed_of(content: Open) -> (Open, u32)
    ensures { ClosesAt content (holding result.0) result.1 }
{
    match content {
        Open::Heap(heap) => match heap.close() {
            Ok(closed) => (Open::Closed(closed), status::OK),
            Err(NotClosed::Running(heap)) => (Open::Heap(heap), status::RUNNING),
            Err(NotClosed::CallsLeft(heap)) => (Open::Heap(heap), status::CALLS_LEFT),
            Err(NotClosed::InUse(heap)) => (Open::Heap(heap), status::RUNNING),
            Err(NotClosed::Stopped(closed, refusal)) => {
                (Open::Closed(closed), status::of_close(refusal))
            }
        },
        Open::Closed(closed) => (Open::Closed(closed), status::CLOSED),
        Open::Stopped(word) => (Open::Stopped(word), status::STOPPED),
        other => (other, status::WRONG_KIND),
    }
}

/// Nothing was found.
pub fn nothing_found() -> Found
    ensures { result ≡ nothing_found }
{
    Found {
        size: 0,
        objects: 0,
        fields: 0,
        lanes: 0,
        capacity: 0,
        threads: 0,
        dropped: 0,
        undone: 0,
    }
}
