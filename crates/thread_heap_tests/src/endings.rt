//! What closing answers of sessions that haven't all ended.

ghost use Rattle.std.specs.Prelude.{◌≡◌, ℕ, ◌∷◌, [], All, IfSome};
ghost use Rattle.block_disk.specs.Memory.{device_of};
ghost use Rattle.thread_heap.specs.Joined.{IsHelping, IsJoined, IsJoinedWith};
ghost use Rattle.session.specs.Sessions.{IsSessionOf};
ghost use Rattle.trim_helper.specs.Endings.{IsEnded, Rings};

use crate::heap::{TwoLanes, declare, open_two};
use crate::images::values_on;
use crate::work::{ALL, TOTAL};
use block_disk::MemDisk;
use heap_model::Lane;
use monitor::Shared;
use session::{Session, Waiting};
use std::alloc::Global;
use thread_heap::{RunningHeap, close, end, joined_law};
use trim_helper::{CloseError, Ended};

/// Why a heap wasn't closed, if it wasn't, and the values that recovery gives of its device.
pub type Closing = (Option<CloseError>, Option<[u64; 3]>);

// Closes the heap with these sessions.
fn close_with(alloc: Global, heap: RunningHeap<MemDisk>, ended: Vec<Ended>) -> Closing
    requires helper { IsHelping device_of heap.shared heap.helper }
    requires ended { All (IsEnded heap.shared heap.helper.store.known.layout.capacity heap.helper.rings) ended.items }
{
    match close(heap.shared, ended, heap.helper) {
        Ok(disk) => (None, values_on(alloc, disk)),
        Err((disk, why)) => (Some(why), values_on(alloc, disk)),
    }
}

// The list of one session that has ended.
fn one_of(alloc: Global, only: Ended) -> Option<Vec<Ended>>
    ensures items { IfSome result (λ l. l.items ≡ only ∷ []) }
{
    vec![in alloc; only].ok()
}

// The list of two.
fn both_of(alloc: Global, first: Ended, second: Ended) -> Option<Vec<Ended>>
    ensures items { IfSome result (λ l. l.items ≡ first ∷ second ∷ []) }
{
    vec![in alloc; first, second].ok()
}

// Closes the heap with the sessions of this list, if there is one.
fn close_listed(alloc: Global, heap: RunningHeap<MemDisk>, list: Option<Vec<Ended>>) -> Closing
    requires helper { IsHelping device_of heap.shared heap.helper }
    requires ended { IfSome list (λ l. All (IsEnded heap.shared heap.helper.store.known.layout.capacity heap.helper.rings) l.items) }
{
    match Some(heap).zip(list) {
        Some((heap, ended)) => close_with(alloc, heap, ended),
        None => (None, None),
    }
}

/// Closes the heap with this session alone.
pub fn close_one(alloc: Global, heap: RunningHeap<MemDisk>, only: Session) -> Closing
    requires helper { IsHelping device_of heap.shared heap.helper }
    requires only { IsJoinedWith heap.shared heap.helper only }
{
    close_listed(alloc, heap, one_of(alloc, end(only)))
}

// Enters a monitor, and ends.
fn end_holding(shared: &Shared, session: Session) -> Ended
    requires seat { IsSessionOf shared.now session }
    ensures ended { (capacity : ℕ) (rings : Rings) → IsJoined shared.now capacity rings session → IsEnded shared.now capacity rings result }
{
    joined_law();
    let mut session = session;
    let _ = session.try_enter(shared, ALL);
    end(session)
}

// Closes with both, the first of which holds a monitor.
fn close_holding(
    alloc: Global,
    heap: RunningHeap<MemDisk>,
    first: Session,
    second: Session,
) -> Closing
    requires helper { IsHelping device_of heap.shared heap.helper }
    requires first { IsJoinedWith heap.shared heap.helper first }
    requires second { IsJoinedWith heap.shared heap.helper second }
{
    let held = end_holding(&heap.shared, first);
    close_listed(alloc, heap, both_of(alloc, held, end(second)))
}

// Enters a monitor, stores, and begins to wait.
fn begin_wait(shared: &Shared, session: Session) -> Option<Waiting>
    requires seat { IsSessionOf shared.now session }
{
    let mut session = session;
    let _ = session.try_enter(shared, ALL);
    let _ = session.store(shared, TOTAL, 7);
    session.begin_wait(shared, ALL).ok()
}

// Closes with the second alone, while the first waits.
fn close_waiting(
    alloc: Global,
    heap: RunningHeap<MemDisk>,
    first: Session,
    second: Session,
) -> (bool, Closing)
    requires helper { IsHelping device_of heap.shared heap.helper }
    requires first { IsJoinedWith heap.shared heap.helper first }
    requires second { IsJoinedWith heap.shared heap.helper second }
{
    let waiting = begin_wait(&heap.shared, first);
    let closing = close_one(alloc, heap, second);
    (waiting.is_some(), closing)
}

// A heap of two lanes that begins to run.
fn opened(alloc: Global) -> Option<TwoLanes>
    ensures first { IfSome result (λ o. IsJoinedWith o.0.shared o.0.helper o.1) }
    ensures second { IfSome result (λ o. IsJoinedWith o.0.shared o.0.helper o.2) }
    ensures helping { IfSome result (λ o. IsHelping device_of o.0.shared o.0.helper) }
{
    let schema = declare(alloc)?;
    open_two(alloc, schema)
}

// The second lane's session hasn't come.
fn told_of_missing(alloc: Global) -> Option<Closing> {
    match opened(alloc) {
        Some((heap, first, _second)) => Some(close_one(alloc, heap, first)),
        None => None,
    }
}

// The first lane's session holds a monitor.
fn told_of_holding(alloc: Global) -> Option<Closing> {
    match opened(alloc) {
        Some((heap, first, second)) => Some(close_holding(alloc, heap, first, second)),
        None => None,
    }
}

// The first lane's session waits.
fn told_of_waiting(alloc: Global) -> Option<(bool, Closing)> {
    match opened(alloc) {
        Some((heap, first, second)) => Some(close_waiting(alloc, heap, first, second)),
        None => None,
    }
}

// Not closed for this reason; recovery gives the first values.
fn refused(why: CloseError) -> Closing {
    (Some(why), Some([0; 3]))
}

#[test]
fn a_session_that_waits_has_not_ended(rt: HostRuntime) {
    let missing = refused(CloseError::Missing { lane: Lane(0) });
    assert!(rt; told_of_waiting(rt.alloc()) == Some((true, missing)));
}

#[test]
fn all_sessions_have_to_end(rt: HostRuntime) {
    let missing = refused(CloseError::Missing { lane: Lane(1) });
    assert!(rt; told_of_missing(rt.alloc()) == Some(missing));
    let unfinished = refused(CloseError::Unfinished { lane: Lane(0) });
    assert!(rt; told_of_holding(rt.alloc()) == Some(unfinished));
}
