//! A hosted heap is closed.
ghost use Rattle.std.specs.Prelude.{◌≡◌, ◌<◌, ◌≤◌, [], ℕ, All, Any, IfErr, IfOk, Some, true, false, drop, length, slice_index_or, take};
ghost use Rattle.std.specs.List.{range_with_len};
ghost use Rattle.host_heap.specs.Closing.{HasStopped};
ghost use Rattle.host_heap.specs.Hosting.{IsClosedWith, hosted_device};
ghost use Rattle.host_heap.specs.Lanes.{HasCome, IsAwaited, IsLaneEnd, KeepCome, KeepsEnds, SetsCame, SetsEnd, TakesBack, lanes_at};
ghost use Rattle.host_heap.specs.declared.lane_end.LaneEnd.{LaneEnd as End};
ghost use Rattle.monitor.specs.Seats.{Home};
ghost use Rattle.thread_heap.specs.Joined.{IsHelping};
ghost use Rattle.trim_helper.specs.Endings.{IsEnded, Rings, lanes_ended};

use crate::error::{CloseRefusal, FailedCall};
use crate::heap::HostedHeap;
use crate::lane_end::LaneEnd;
use crate::room::CLOSE_SYNCS;
use crate::seated::HostedSession;
use disk_deferred::{DeferredDisk, DeviceCall, HostCalls};
use monitor::Shared;
use std::alloc::{AllocError, Global};
use std::sync::Arc;
use thread_heap::{close, end};
use trim_helper::{Ended, Helper};

/// What is left of a heap that was closed: its disk in memory, and the calls that its host is yet to make.
#[derive(Drop)]
pub struct Closed {
    pub disk: DeferredDisk,
    pub calls: HostCalls,
}

impl Closed {
    ghost use Rattle.std.specs.Prelude.{◌≡◌};
    ghost use Rattle.host_heap.specs.Failing.{failed_call};

    /// The host couldn't make the call that the calls gave. Returns which that was, as [`HostedHeap::call_failed`] does. A write may be
    /// made again. No call may follow a sync.
    pub fn call_failed(&self) -> Option<FailedCall>
        // A call that the host couldn't make is the first of those that are left, a write or a sync.
        ensures { result ≡ failed_call self.now.calls.left }
    {
        match self.calls.next_call() {
            None => None,
            Some(DeviceCall::Write { .. }) => Some(FailedCall::Write),
            Some(DeviceCall::Sync) => Some(FailedCall::Sync),
        }
    }
}

/// Why a heap isn't closed.
#[derive(Drop)]
pub enum NotClosed {
    /// A session that was handed out hasn't ended. The heap goes on, and may be closed later.
    Running(HostedHeap),
    /// There is no room to hand over as many syncs as a closing may take, [`CLOSE_SYNCS`](crate::CLOSE_SYNCS), beside those that the
    /// host hasn't fetched. The heap goes on, and may be closed once the host has made them.
    CallsLeft(HostedHeap),
    /// Each session that was handed out has ended, and another thread isn't done with that. The heap goes on, but for the sessions that
    /// weren't handed out, and may be closed later.
    InUse(HostedHeap),
    /// The heap has ended as if it had stopped: what was acknowledged stays. It may be opened again.
    Stopped(Closed, CloseRefusal),
}

impl HostedHeap {
    ghost use Rattle.std.specs.Prelude.{◌≡◌, [], All, Any, IfErr, IfOk, true, false};
    ghost use Rattle.disk_deferred.specs.Host.{HasLooked};
    ghost use Rattle.host_heap.specs.Closing.{GoesOn, GoesOnWithout, IsNotClosed, IsNotFinished};
    ghost use Rattle.host_heap.specs.Hosting.{IsClosedWith};
    ghost use Rattle.host_heap.specs.Lanes.{HasCome, IsAwaited};

    /// Closes the heap, once each session that was handed out has ended: all that the sessions sent is made durable on the disk in
    /// memory and handed over. The host makes the calls that are left, and then its device has the heap of one legal history, in
    /// which each session's part is what its calls told.
    ///
    /// Refused in the order of [`NotClosed`].
    pub fn close(self) -> Result<Closed, NotClosed>
        // A closed heap's sessions have ended, one a lane, and none of them held a monitor. One legal history has what
        // each was told as its part, and the disk stands for its heap.
        ensures ok { IfOk result (λ closed. IsClosedWith self.home self.helper closed.disk) }
        // The calls that are left after a closing are the heap's own.
        ensures calls { IfOk result (λ closed. HasLooked self.calls closed.calls) }
        // A heap is answered `Running` only where, after a look, a session that was handed out hasn't come back. There,
        // and where the syncs of a closing have no room, it goes on as it was.
        ensures refused { IfErr result (IsNotClosed self) }
    {
        let mut heap = self;
        if !heap.has_all() {
            return Err(NotClosed::Running(heap));
        }
        if !heap.has_room(CLOSE_SYNCS) {
            return Err(NotClosed::CallsLeft(heap));
        }
        heap.end_unused();
        heap.finish()
    }

    // Whether each session that was handed out has come back.
    fn has_all(&mut self) -> bool
        ensures came { result ≡ true → All HasCome self.new.out }
        ensures awaited { result ≡ false → Any IsAwaited self.new.out }
        ensures same { GoesOn self.old self.new × (self.new.calls ≡ self.old.calls) }
    {
        let first = self.unused.len();
        have_come(&mut self.lanes, first)
    }

    // Ends the sessions that weren't handed out: each has come back to its lane's end then.
    fn end_unused(&mut self)
        requires { All HasCome self.old.out }
        ensures without { GoesOnWithout self.old self.new × (self.new.calls ≡ self.old.calls) }
    {
        bring_back(&mut self.unused, &mut self.lanes);
    }

    // Closes with the sessions that have come back, all of them, where nobody else has the words.
    fn finish(self) -> Result<Closed, NotClosed>
        requires unused { self.unused ≡ [] }
        requires came { All HasCome self.out }
        ensures ok { IfOk result (λ closed. IsClosedWith self.home self.helper closed.disk) }
        ensures calls { IfOk result (λ closed. closed.calls ≡ self.calls) }
        ensures refused { IfErr result (IsNotFinished self) }
    {
        let HostedHeap {
            alloc,
            shared,
            helper,
            calls,
            layout,
            unused,
            lanes,
            stop,
        } = self;
        match Arc::try_unwrap(shared) {
            Ok(shared) => close_all(alloc, shared, helper, calls, lanes),
            Err(shared) => Err(NotClosed::InUse(HostedHeap {
                alloc,
                shared,
                helper,
                calls,
                layout,
                unused,
                lanes,
                stop,
            })),
        }
    }
}

// Whether the sessions of the lanes from this place on have come back.
fn have_come(lanes: &mut Vec<LaneEnd>, first: usize) -> bool
    ensures front { take first lanes.new.items ≡ take first lanes.old.items }
    ensures kept { KeepsEnds lanes.old.items lanes.new.items }
    ensures come { KeepCome lanes.old.items lanes.new.items }
    ensures came { result ≡ true → All HasCome (drop first lanes.new.items) }
    ensures count { length lanes.new.items ≡ length lanes.old.items }
    ensures awaited { result ≡ false → Any IsAwaited (drop first lanes.new.items) }
{
    for place in first..lanes.len() {
        if !has_come_at(lanes, place) {
            return false;
        }
    }
    true
}

// Whether the session of the lane at this place has come back.
fn has_come_at(lanes: &mut Vec<LaneEnd>, place: usize) -> bool
    requires { place < length lanes.old.items }
    ensures kept { KeepsEnds lanes.old.items lanes.new.items }
    ensures come { KeepCome lanes.old.items lanes.new.items }
    ensures came { SetsEnd lanes.old.items place (λ e. result ≡ true → HasCome e) lanes.new.items }
    ensures count { length lanes.new.items ≡ length lanes.old.items }
    ensures awaited { (d : End) → result ≡ false → IsAwaited (slice_index_or lanes.new.items place d) }
{
    lanes[place].has_come()
}

// Lets these sessions come back, each to its lane's end.
fn bring_back(unused: &mut Vec<HostedSession>, lanes: &mut Vec<LaneEnd>)
    requires count { length unused.old.items ≤ length lanes.old.items }
    requires later { All HasCome (drop (length unused.old.items) lanes.old.items) }
    ensures none { unused.new.items ≡ [] }
    ensures came { All HasCome lanes.new.items }
    ensures others { drop (length unused.old.items) lanes.new.items ≡ drop (length unused.old.items) lanes.old.items }
    ensures kept { TakesBack unused.old.items lanes.old.items lanes.new.items }
{
    'sessions: while let Some(session) = unused.pop() {
        let place = unused.len();
        bring_to(lanes, place, session);
    }
}

// Lets a session come back to the end at this place.
fn bring_to(lanes: &mut Vec<LaneEnd>, place: usize, session: HostedSession)
    requires { place < length lanes.old.items }
    ensures { SetsCame lanes.old.items place (Some session.session) lanes.new.items }
{
    let HostedSession {
        shared,
        session,
        back,
        stop: _,
    } = session;
    drop(shared);
    drop(back);
    lanes[place].came = Some(session);
}

// Lets what has come back meet the helper.
fn close_all(
    alloc: Global,
    shared: Shared,
    helper: Helper<DeferredDisk>,
    calls: HostCalls,
    lanes: Vec<LaneEnd>,
) -> Result<Closed, NotClosed>
    requires helping { IsHelping hosted_device shared helper }
    requires lanes { All (IsLaneEnd shared helper.store.known.layout.capacity helper.rings) lanes.items }
    requires order { lanes_at lanes.items ≡ range_with_len 0 helper.store.known.threads }
    requires came { All HasCome lanes.items }
    ensures ok { IfOk result (λ closed. IsClosedWith shared helper closed.disk) }
    ensures calls { IfOk result (λ closed. closed.calls ≡ calls) }
    ensures refused { IfErr result (HasStopped shared helper calls) }
{
    let Ok(ended) = end_lanes(alloc, lanes) else {
        let disk = helper.into_store().into_disk();
        drop(shared);
        return Err(NotClosed::Stopped(Closed { disk, calls }, CloseRefusal::NoMemory));
    };
    match close(shared, ended, helper) {
        Ok(disk) => Ok(Closed { disk, calls }),
        Err((disk, refusal)) => Err(NotClosed::Stopped(
            Closed { disk, calls },
            CloseRefusal::Close(refusal),
        )),
    }
}

// What the sessions that have come back leave, the first lane's first.
fn end_lanes(alloc: Global, lanes: Vec<LaneEnd>) -> Result<Vec<Ended>, AllocError>
    requires came { All HasCome lanes.items }
    ensures ended { (h : Home) (capacity : ℕ) (rings : Rings) → All (IsLaneEnd h capacity rings) lanes.items
        → IfOk result (λ es. All (IsEnded h capacity rings) es.items × (lanes_ended es.items ≡ lanes_at lanes.items)) }
{
    let mut left = lanes;
    let mut ended = Vec::new(alloc);
    'lanes: while let Some(lane) = left.pop() {
        let LaneEnd { back: _, came } = lane;
        if let Some(session) = came {
            ended.push(end(session))?;
        }
    }
    Ok(ended)
}
