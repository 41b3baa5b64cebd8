//! A hosted heap, from its opening to its end.
use crate::error::{AcknowledgedError, FailedCall, RoundError};
use crate::lane_end::LaneEnd;
use crate::room::ROUND_SYNCS;
use crate::seated::HostedSession;
use crate::stop::Stopper;
use crate::stop_word::StopWord;
use disk_deferred::{DeferredDisk, DeviceCall, HostCalls, SYNCS};
use heap_model::{Lane, StoreError};
use image::Layout;
use monitor::Shared;
use std::alloc::Global;
use std::marker::Model;
use std::sync::Arc;
use thread_heap::{helping_law, joined_law};
use trim_helper::Helper;

/// A running heap, whose host makes the device's calls: its helper, the sessions that weren't handed out yet, and what the host has
/// to do.
///
/// A round writes and syncs a disk in memory, and hands the calls over. What a round acknowledges is on the host's device once the
/// host has made them. Contracts see it as its words, its helper, the calls, the lanes whose session wasn't handed out, where the
/// sessions that were come back, and the word by which they learn that it has stopped.
#[derive(Drop)]
pub struct HostedHeap {
    pub(crate) alloc: Global,
    pub(crate) shared: Arc<Shared>,
    pub(crate) helper: Helper<DeferredDisk>,
    pub(crate) calls: HostCalls,
    pub(crate) layout: Layout,
    pub(crate) unused: Vec<HostedSession>,
    pub(crate) lanes: Vec<LaneEnd>,
    pub(crate) stop: Stopper,
}

impl Model for HostedHeap {
    ghost use Rattle.std.specs.Arc.{arc_value};
    ghost use Rattle.host_heap.specs.Hosting.{Hosting, handed_out, lanes_of};
    ghost use Rattle.host_heap.specs.Keeping.{IsHosting};
    ghost use Rattle.host_heap.specs.contracts.lane_end.LaneEnd as ends;
    ghost use Rattle.std.specs.Coded.{codes};

    ghost Value = { Hosting };

    ghost coded = { Prim.hlevel (codes, ends.the_row.coded) };

    ghost view = { λ x. record { home = arc_value x.shared; helper = x.helper; calls = x.calls; unused = lanes_of x.unused.items; out = handed_out x.unused.items x.lanes.items; stop = x.stop } };

    ghost invariant = { λ x. IsHosting (arc_value x.shared) x.helper x.calls x.layout x.stop.word x.unused.items x.lanes.items };
}

impl HostedHeap {
    ghost use Rattle.std.specs.Prelude.{◌≡◌, ◌≢◌, ◌<◌, ◌≤◌, ◌+◌, ◌↔◌, [], None, Some, IsSome, Err, false, length, IfSome, IsErrOf, OnOk, MatchOption};
    ghost use Rattle.disk_deferred.specs.Handing.{IsSmall};
    ghost use Rattle.disk_deferred.specs.Host.{Fetches, HasLooked, HaveMet};
    ghost use Rattle.disk_deferred.specs.declared.disk.TheConstants.{SYNCS};
    ghost use Rattle.rtrb.specs.Ring.{known_items};
    ghost use Rattle.session.specs.Sessions.{view_of};
    ghost use Rattle.host_heap.specs.Rounds.{HasRound, HearsThreads, KeepsSessions, MakesRoundUpTo};
    ghost use Rattle.host_heap.specs.Hosting.{SameHeap, hosted_device};
    ghost use Rattle.trim_helper.specs.Calls.{SharesUpTo};
    ghost use Rattle.host_heap.specs.Failing.{HasTold, failed_call};
    ghost use Rattle.host_heap.specs.declared.error.FailedCall.TheVariants as FailedCalls;
    ghost use Rattle.host_heap.specs.declared.error.AcknowledgedError.TheVariants.{BadLane, CallsLeft};
    ghost use Rattle.image_parts.specs.Layout.{size_of};
    ghost use Rattle.host_heap.specs.Handing.{GivesFirst, IsAwaitedOut, IsJoinedTo, IsOfNextLane, MakesFirst, SameButOut};
    ghost use Rattle.host_heap.specs.Meeting.{AreAllMade, FetchesAll, KeepsCut, SameButMet, TellsCut};

    /// The layout of its image.
    pub fn layout(&self) -> Layout
        ensures { result ≡ self.now.helper.store.known.layout }
    {
        self.layout
    }

    /// How many bytes its image has.
    pub fn size(&self) -> u64
        ensures { result ≡ size_of self.now.helper.store.known.layout }
    {
        self.layout.size()
    }

    /// How many of its lanes are the threads': each of them has a session. Where the image has one lane more, that one is the helper's
    /// own, and a round takes two syncs in place of four.
    pub fn threads(&self) -> u8
        ensures { result ≡ self.now.helper.store.known.threads }
    {
        self.helper.threads()
    }

    /// Hands out a session that was told nothing, of the least lane of which none was handed out; it is joined to the helper, and comes
    /// back where it is awaited. `None` once all were.
    pub fn session(&mut self) -> Option<HostedSession>
        // Sessions are handed out lane by lane, each once; none is answered only where none is left.
        ensures next { MatchOption result (self.old.unused ≡ []) (IsOfNextLane self.old self.new) }
        // A session that is handed out is awaited at the end of its lane, by the ring that it has.
        ensures out { IfSome result (IsAwaitedOut self.old self.new) }
        // A session that is handed out was told nothing.
        ensures untold { IfSome result (λ s. (view_of s.session).events ≡ []) }
        ensures home { IfSome result (λ s. s.home ≡ self.old.home) }
        // A session that is handed out is joined to its heap's helper.
        ensures joined { IfSome result (IsJoinedTo self.old) }
        // A session that is handed out shares the word by which it learns that its heap has stopped.
        ensures word { IfSome result (λ s. s.stop.word ≡ self.old.stop.word) }
        // Where no session is left the heap stays as it was.
        ensures none { result ≡ None → self.new ≡ self.old }
        ensures same { SameButOut self.old self.new }
    {
        self.unused.pop()
    }

    /// Where the host has made all calls that it was given, takes the calls up to the next sync, if there are some.
    pub fn fetch(&mut self)
        // The host gets the calls in order, none twice.
        ensures fetches { Fetches self.old.calls self.new.calls }
        ensures heap { SameHeap self.old self.new }
    {
        self.calls.fetch();
    }

    /// Looks how many groups of calls were handed over, and aren't fetched yet. A group is the calls up to a sync.
    pub fn waiting(&mut self) -> usize
        // The host is told how many groups of calls a look finds handed over.
        ensures count { result ≡ length (known_items self.new.calls.ring) }
        ensures looked { HasLooked self.old.calls self.new.calls }
        ensures heap { SameHeap self.old self.new }
    {
        self.calls.waiting()
    }

    /// The call that the host has to make next, of those that were fetched. A write has [`MOST_BYTES`](disk_deferred::MOST_BYTES) at most.
    pub fn next_call(&self) -> Option<&DeviceCall>
        ensures small { IfSome result (λ call. IsSmall call.now) }
        ensures first { GivesFirst self.now.calls.left result }
    {
        self.calls.next_call()
    }

    /// The host has made the call that [`next_call`](HostedHeap::next_call) gave. Returns whether there was one.
    pub fn done(&mut self) -> bool
        ensures none { self.old.calls.left ≡ [] → (result ≡ false) × (self.new.calls ≡ self.old.calls) }
        ensures one { MakesFirst self.old.calls self.new.calls result }
        ensures heap { SameHeap self.old self.new }
    {
        self.calls.done()
    }

    /// The host couldn't make the call that [`next_call`](HostedHeap::next_call) gave. Returns which that was; `None` where it gave none.
    ///
    /// A write may be made again: nothing has changed. A sync may not, nor any later call, since what was written before it may be lost
    /// though a later sync succeeds. Each session learns that from now on
    /// ([`is_stopped`](HostedSession::is_stopped)). Let the heap go then, and open it again from bytes that the device itself has.
    pub fn call_failed(&mut self) -> Option<FailedCall>
        // A call that the host couldn't make is the first of those that are left, a write or a sync.
        ensures which { result ≡ failed_call self.old.calls.left }
        // After a failed write nothing has changed.
        ensures other { result ≢ Some FailedCalls.Sync → self.new ≡ self.old }
        // After a failed sync the word that the heap shares with its sessions is written.
        ensures stopped { result ≡ Some FailedCalls.Sync → IsSome self.new.stop.seen }
        ensures same { HasTold self.old self.new }
    {
        match self.calls.next_call() {
            None => None,
            Some(DeviceCall::Write { .. }) => Some(FailedCall::Write),
            Some(DeviceCall::Sync) => {
                self.stop.write();
                Some(FailedCall::Sync)
            }
        }
    }

    /// Lets the heap go, but for the word by which its sessions learn that it has stopped.
    pub fn into_stop_word(self) -> StopWord
        ensures { result ≡ self.stop }
    {
        let HostedHeap {
            alloc: _,
            shared,
            helper,
            calls,
            layout: _,
            unused,
            lanes,
            stop,
        } = self;
        drop(unused);
        drop(lanes);
        drop(calls);
        drop(helper);
        drop(shared);
        StopWord { stopper: stop }
    }

    /// A round of the helper ([`Helper::bounded_round`]): what the sessions sent is made durable and acknowledged on the disk in memory,
    /// and the calls are handed over. It answers how many records it applied: at most `most`, or all that can be applied where that is
    /// `None`. What a bound leaves stays in the rings for a later round.
    ///
    /// Refused, in this order:
    /// - `CallsLeft`: there is no room to hand over as many syncs as a round may take, [`ROUND_SYNCS`], beside those that the host hasn't
    ///   fetched. Nothing was done;
    /// - `Store`: as by [`Helper::bounded_round`]. A `Fault` is want of memory; from then on each round answers `Failed`, and the heap has
    ///   to be opened again.
    pub fn round(&mut self, most: Option<u64>) -> Result<u64, RoundError>
        ensures round { HasRound most self.old self.new result }
    {
        if !self.has_room(ROUND_SYNCS) {
            return Err(RoundError::CallsLeft);
        }
        match self.serve(most) {
            Ok(applied) => Ok(applied),
            Err(stop) => Err(RoundError::Store(stop)),
        }
    }

    // Looks whether so many syncs may be handed over.
    pub(crate) fn has_room(&mut self, syncs: usize) -> bool
        requires few { syncs ≤ SYNCS }
        ensures room { (result ≡ false) ↔ (SYNCS < length (known_items self.new.calls.ring) + syncs) }
        ensures heap { SameHeap self.old self.new }
        ensures calls { HasLooked self.old.calls self.new.calls }
    {
        self.calls.waiting() <= SYNCS - syncs
    }

    // The round of the helper.
    fn serve(&mut self, most: Option<u64>) -> Result<u64, StoreError>
        ensures serves { MakesRoundUpTo most self.old self.new result }
        ensures shares { SharesUpTo hosted_device most self.old.helper self.new.helper result }
        ensures heard { HearsThreads self.old self.new }
        ensures kept { KeepsSessions self.old self.new }
        ensures calls { self.new.calls ≡ self.old.calls }
    {
        joined_law();
        helping_law::<DeferredDisk>();
        self.helper.bounded_round(&self.shared, most)
    }

    // Whether a call that was handed over isn't made. The disk and its host's calls have met then.
    fn has_calls(&mut self) -> bool
        ensures left { (result ≡ false) ↔ AreAllMade self.new.calls }
        ensures fetches { FetchesAll self.old.calls self.new.calls }
        ensures met { HaveMet self.new.helper.store.disk self.new.calls }
        ensures heap { SameButMet self.old self.new }
    {
        self.fetch();
        self.meet();
        self.are_left()
    }

    // Lets the disk meet its host's calls.
    fn meet(&mut self)
        ensures calls { HasLooked self.old.calls self.new.calls }
        ensures met { HaveMet self.new.helper.store.disk self.new.calls }
        ensures heap { SameButMet self.old self.new }
    {
        self.helper.meet(&mut self.calls);
    }

    // Whether a call is left, of those that were fetched or of those that weren't.
    fn are_left(&mut self) -> bool
        ensures left { (result ≡ false) ↔ AreAllMade self.new.calls }
        ensures calls { HasLooked self.old.calls self.new.calls }
        ensures heap { SameHeap self.old self.new }
    {
        self.calls.waiting() > 0 || self.calls.next_call().is_some()
    }

    /// How many sections of the lane are acknowledged, where the host has made all calls that were handed over. Whatever a crash of its
    /// device leaves then keeps them.
    ///
    /// Refused, in this order:
    /// - `BadLane`;
    /// - `CallsLeft`: a call that was handed over isn't made. The calls up to the next sync are fetched then.
    pub fn acknowledged(&mut self, lane: Lane) -> Result<u64, AcknowledgedError>
        // The answer is the acknowledged cut's count of the lane.
        ensures ok { TellsCut self.old lane.0 result }
        // A count is answered only where no call is left, of those fetched or handed over.
        ensures all_made { OnOk result (AreAllMade self.new.calls) }
        // When a count is answered, whatever a crash of the host's device leaves shows the acknowledged cut of what was
        // applied, or a later one.
        ensures kept { OnOk result (KeepsCut self.old self.new) }
        // `BadLane` is answered exactly for a lane that isn't one of the threads'.
        ensures bad_lane { (result ≡ Err BadLane) ↔ (self.old.helper.store.known.threads ≤ lane.0) }
        // `CallsLeft` is answered exactly where the lane is one of the threads' and a call is left.
        ensures calls_left { IsErrOf result CallsLeft ↔ (lane.0 < self.old.helper.store.known.threads) × (¬ AreAllMade self.new.calls) }
        // The calls that were handed over are fetched first.
        ensures fetches { lane.0 < self.old.helper.store.known.threads → FetchesAll self.old.calls self.new.calls }
        // The disk and the host's calls meet whenever the heap is asked what is acknowledged of a lane of the threads'.
        ensures met { lane.0 < self.old.helper.store.known.threads → HaveMet self.new.helper.store.disk self.new.calls }
        // For a lane that isn't one of the threads' nothing is done.
        ensures untouched { self.old.helper.store.known.threads ≤ lane.0 → self.new ≡ self.old }
        ensures heap { SameButMet self.old self.new }
    {
        if lane.0 >= self.helper.threads() {
            return Err(AcknowledgedError::BadLane);
        }
        if self.has_calls() {
            return Err(AcknowledgedError::CallsLeft);
        }
        Ok(self.helper.acknowledged(lane))
    }
}
