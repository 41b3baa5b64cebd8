//! The host's end of a deferred disk.
ghost use Rattle.std.specs.Prelude.{◌≡◌, ◌<◌, [], false, length, IfSome, MatchOption};
ghost use Rattle.disk_deferred.specs.Deferred.{deferred_device, stops_in};
ghost use Rattle.disk_deferred.specs.Handing.{AreLeft, AreToSync, IsSmall};
ghost use Rattle.disk_deferred.specs.Host.{Fetches, GivesKnown, HasLooked, HaveMet, IsFirst, IsHostOf, MakesFirst, TakesBatch};
ghost use Rattle.rtrb.specs.Ring.{SameConsumer, received, known_items};

use crate::call::{DeviceCall, Handed};
use crate::disk::DeferredDisk;
use crate::handing::Handing;
use rtrb::Consumer;
use std::alloc::Global;
use std::collections::VecDeque;
use std::marker::Model;

/// The calls that the host has to make on its device, in the order in which the disk was called.
///
/// The host fetches calls, looks at the next one, makes it, says that it has, and goes on. Before it has said so, a crash of its device may
/// leave what a crash of the disk might have left before that call or in it.
#[derive(Drop)]
pub struct HostCalls {
    ring: Consumer<Handed, Global, Handing>,
    // The calls of the batch that was taken last, but for those that were made.
    left: VecDeque<DeviceCall>,
}

impl Model for HostCalls {
    ghost use Rattle.disk_deferred.specs.Host.{Host, IsTaking, made_of};
    ghost use Rattle.rtrb.specs.Ring.{received};

    ghost Value = { Host };

    ghost view = { λ h. record { made = made_of (received h.ring) h.left.items; left = h.left.items; ring = h.ring } };

    ghost invariant = { λ h. IsTaking (received h.ring) h.left.items };
}

impl HostCalls {
    // The host's end, from which the beginning was taken.
    pub(crate) fn of(alloc: Global, ring: Consumer<Handed, Global, Handing>) -> HostCalls
        requires none { stops_in (received ring) ≡ [] }
        requires begun { 0 < length (received ring) }
        ensures { (result.made ≡ []) × (result.left ≡ []) × (result.ring ≡ ring) }
    {
        HostCalls {
            ring,
            left: VecDeque::new(alloc),
        }
    }

    /// Where none is left, takes the calls up to the next sync, if they were handed over. There is at least one, the sync.
    pub fn fetch(&mut self)
        // A fetch takes the next calls where none is left, and makes none.
        ensures fetches { Fetches self.old self.new }
        ensures to_sync { AreLeft self.new.left }
        ensures ring { SameConsumer self.old.ring self.new.ring }
    {
        if !self.left.is_empty() {
            return;
        }
        if let Some(calls) = next_batch(&mut self.ring) {
            self.left = VecDeque::from(calls);
        }
    }

    /// Looks how many syncs were handed over with their calls, and aren't fetched yet.
    pub fn waiting(&mut self) -> usize
        // The host is told how many batches a look finds in the ring. A batch is the calls up to a sync.
        ensures count { result ≡ length (known_items self.new.ring) }
        ensures looked { HasLooked self.old self.new }
    {
        self.ring.slots()
    }

    /// The call that the host has to make next, of those that it fetched. A write has [`MOST_BYTES`](crate::MOST_BYTES) at most.
    pub fn next_call(&self) -> Option<&DeviceCall>
        ensures first { MatchOption result (self.now.left ≡ []) (λ call. IsFirst call.now self.now.left) }
        // No write that the host is told is longer than `MOST_BYTES`, 4,096 bytes.
        ensures small { IfSome result (λ call. IsSmall call.now) }
    {
        self.left.front()
    }

    /// The host has made the call that [`next_call`](HostCalls::next_call) gave. Returns whether there was one.
    pub fn done(&mut self) -> bool
        ensures ring { SameConsumer self.old.ring self.new.ring }
        ensures none { self.old.left ≡ [] → (result ≡ false) × (self.new ≡ self.old) }
        ensures one { MakesFirst self.old self.new result }
    {
        self.left.pop_front().is_some()
    }

    /// Beside its disk: the host has made the first of the calls that the disk's writes and syncs are told as, and those that are left
    /// come next. What a crash of the host's device may leave then, or while it makes any of those, a crash of the disk might have left.
    pub fn meet(&mut self, disk: &mut DeferredDisk)
        // A disk and a host's calls meet only where they are the ends of one ring.
        requires { IsHostOf disk.old self.old }
        ensures looked { HasLooked self.old self.new }
        ensures disk { disk.new.memory ≡ disk.old.memory }
        ensures device { deferred_device disk.new ≡ deferred_device disk.old }
        ensures pair { IsHostOf disk.new self.new }
        ensures met { HaveMet disk.new self.new }
    {
        self.ring.slots_beside(&mut disk.ring);
    }
}

// Takes what was handed over next, if it is there. The beginning, which has no calls, was taken before.
fn next_batch(ring: &mut Consumer<Handed, Global, Handing>) -> Option<Vec<DeviceCall>>
    requires begun { 0 < length (received ring.old) }
    ensures taken { TakesBatch ring.old ring.new result }
    ensures some { MatchOption result (known_items ring.new ≡ []) (λ calls. AreToSync calls.items) }
    ensures known { GivesKnown ring.old result }
    ensures begun { 0 < length (received ring.new) }
    ensures ring { SameConsumer ring.old ring.new }
{
    match ring.pop() {
        Ok(Handed::Calls(calls)) => Some(calls),
        Ok(Handed::Begun(_)) | Err(_) => None,
    }
}
