//! A session that has ended is handed out again.
ghost use Rattle.std.specs.Prelude.{◌≡◌, ◌<◌, ◌≤◌, [], All, IfNone, IfOk, IfSome, None, Some, true, false, drop, length, slice_index_or, take};
ghost use Rattle.std.specs.Arc.{arc_value};
ghost use Rattle.host_heap.specs.Lanes.{AreLaneEnds, IsAwaitedBy, IsIdle, IsTaken, KeepCome, KeepsEnds, SetsCame, SetsEnd};
ghost use Rattle.host_heap.specs.declared.lane_end.LaneEnd.{LaneEnd as End};
ghost use Rattle.rtrb.specs.Ring.{IsPair, known_free, known_items, received, sent};

use crate::beginning::{outfit, seat};
use crate::heap::HostedHeap;
use crate::lane_end::LaneEnd;
use crate::returning::Returning;
use crate::seated::HostedSession;
use crate::stop::Stop;
use monitor::Shared;
use rtrb::{Consumer, Producer};
use session::Session;
use std::alloc::{AllocError, Global};
use std::sync::Arc;

impl HostedHeap {
    ghost use Rattle.std.specs.Prelude.{◌≡◌, IfOk, OnErr};
    ghost use Rattle.host_heap.specs.Again.{HandsIfIdle};

    /// Hands out again a session that was handed out before, has ended ([`HostedSession::end`]) and holds no monitor, whichever it is.
    /// It goes on where it ended, so that its lane's sections are counted on. `None` where there is none.
    ///
    /// An error is want of memory: nothing was done.
    pub fn session_again(&mut self) -> Result<Option<HostedSession>, AllocError>
        // A session that has ended and holds no monitor is handed out again, just as it came back. None is handed out only
        // where, after a look, there is none.
        ensures again { IfOk result (HandsIfIdle self.old self.new) }
        // Want of memory changes nothing.
        ensures err { OnErr result (self.new ≡ self.old) }
    {
        let (shared, stop, producer, back) = outfit(self.alloc, &self.shared, &mut self.stop)?;
        let first = self.unused.len();
        let Some(place) = find_idle(&mut self.lanes, first) else {
            drop(shared);
            drop(stop);
            drop(producer);
            drop(back);
            return Ok(None);
        };
        let session = hand_out_at(&mut self.lanes, place, shared, stop, producer, back);
        Ok(Some(session))
    }
}

// The place, from this one on, of an end whose session has come back and holds no monitor.
fn find_idle(lanes: &mut Vec<LaneEnd>, first: usize) -> Option<usize>
    ensures front { take first lanes.new.items ≡ take first lanes.old.items }
    ensures kept { KeepsEnds lanes.old.items lanes.new.items }
    ensures come { KeepCome lanes.old.items lanes.new.items }
    ensures count { length lanes.new.items ≡ length lanes.old.items }
    ensures place { IfSome result (λ place. (first ≤ place) × (place < length lanes.new.items)) }
    ensures idle { (d : End) → IfSome result (λ place. IsIdle (slice_index_or lanes.new.items place d)) }
    ensures none { IfNone result (All IsTaken (drop first lanes.new.items)) }
{
    for place in first..lanes.len() {
        if is_idle_at(lanes, place) {
            return Some(place);
        }
    }
    None
}

// Whether the session of the lane at this place has come back and holds no monitor.
fn is_idle_at(lanes: &mut Vec<LaneEnd>, place: usize) -> bool
    requires { place < length lanes.old.items }
    ensures kept { KeepsEnds lanes.old.items lanes.new.items }
    ensures come { KeepCome lanes.old.items lanes.new.items }
    ensures taken { SetsEnd lanes.old.items place (λ e. result ≡ false → IsTaken e) lanes.new.items }
    ensures count { length lanes.new.items ≡ length lanes.old.items }
    ensures idle { (d : End) → result ≡ true → IsIdle (slice_index_or lanes.new.items place d) }
{
    lanes[place].is_idle()
}

// Hands out the session that has come back at this place.
fn hand_out_at(
    lanes: &mut Vec<LaneEnd>,
    place: usize,
    shared: Arc<Shared>,
    stop: Stop,
    producer: Producer<Session, Global, Returning>,
    back: Consumer<Session, Global, Returning>,
) -> HostedSession
    requires place { place < length lanes.old.items }
    requires idle { (d : End) → IsIdle (slice_index_or lanes.old.items place d) }
    requires ends { AreLaneEnds (arc_value shared) lanes.old.items }
    requires pair { IsPair producer back }
    requires unsent { (sent producer ≡ []) × (known_free producer ≡ 2) }
    requires unread { (received back ≡ []) × (known_items back ≡ []) }
    ensures home { result.home ≡ arc_value shared }
    ensures stop { result.stop ≡ stop }
    ensures session { (d : End) → (slice_index_or lanes.old.items place d).came ≡ Some result.session }
    ensures new { SetsEnd lanes.old.items place (IsAwaitedBy result) lanes.new.items }
    ensures kept { KeepsEnds lanes.old.items lanes.new.items }
{
    let came = take_at(lanes, place);
    let (session, end) = seat(shared, came.unwrap(), stop, producer, back);
    lanes[place] = end;
    session
}

// Takes the session that has come back at this place out of its end.
fn take_at(lanes: &mut Vec<LaneEnd>, place: usize) -> Option<Session>
    requires { place < length lanes.old.items }
    ensures came { (d : End) → result ≡ (slice_index_or lanes.old.items place d).came }
    ensures left { SetsCame lanes.old.items place None lanes.new.items }
{
    lanes[place].came.take()
}
