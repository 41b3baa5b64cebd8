//! The helper's end of a ring.

ghost use Rattle.std.specs.Prelude.{◌≡◌, ◌<◌, [], ◌∷◌, ◌++◌, IfNone, IfSome, MatchOption, length};
ghost use Rattle.thread_rings.specs.Following as follows;
ghost use Rattle.thread_rings.specs.Rings.{GivesWitness, IsPair, KeepsWitness, ReceiverLooked, SameReceiver};
ghost use Rattle.thread_rings.specs.Rings.{SameRecords, SenderLooked, Takes, TakesNext, known_records, received};
ghost use Rattle.thread_rings.specs.Rings.{sent, whose_received};

use crate::sender::Sender;
use crate::sent::{Following, Sent};
use heap_model::Record;
use monitor::{Told, Witness};
use rtrb::Consumer;
use std::alloc::Global;
use std::marker::Model;
use std::mem;

/// The helper's end of a ring. It keeps the witness of the last release that it took. Contracts see it as its `Receiving`.
#[derive(Drop)]
pub struct Receiver {
    pub(crate) ring: Consumer<Sent, Global, Following>,
    pub(crate) told: Told,
    // Whether there is a witness.
    pub(crate) is_told: bool,
}

impl Model for Receiver {
    ghost use Rattle.thread_rings.specs.Rings.{IsGreeted, Receiving};

    ghost Value = { Receiving };

    ghost view = { λ s. record { ring = s.ring; told = s.told } };

    ghost invariant = { λ s. IsGreeted (record { ring = s.ring; told = s.told }) s.is_told };
}

// Whether the record frees a monitor.
#[inline(always)]
fn is_release(entry: Record) -> bool
    ensures { result ≡ follows.is_release entry }
{
    match entry {
        Record::Rel { .. } | Record::WaitRel { .. } => true,
        Record::Acq { .. } | Record::Put { .. } => false,
    }
}

impl Receiver {
    /// How many records are known to be in the ring.
    #[inline(always)]
    pub fn cached_slots(&self) -> usize
        ensures { result ≡ length (known_records self.now) }
    {
        self.ring.cached_slots()
    }

    /// Looks how many records are in the ring.
    #[inline(always)]
    pub fn slots(&mut self) -> usize
        // A look loses nothing.
        ensures looked { ReceiverLooked self.old self.new }
        ensures value { result ≡ length (known_records self.new) }
    {
        self.ring.slots()
    }

    /// The same where the ring's other end is at hand: what was taken and what is left is what was sent.
    pub fn slots_beside(&mut self, sender: &mut Sender) -> usize
        requires { IsPair sender.old self.old }
        // A look loses nothing.
        ensures looked { ReceiverLooked self.old self.new }
        ensures sender { SenderLooked sender.old sender.new }
        ensures value { result ≡ length (known_records self.new) }
        // Where both ends are at hand, what was taken and what is left are what was sent, in order.
        ensures fifo { received self.new ++ known_records self.new ≡ sent sender.old }
    {
        self.ring.slots_beside(&mut sender.ring)
    }

    /// Takes the next record that is known to be in the ring. It keeps the witness that comes with a release, in place of the last one.
    #[inline(always)]
    pub fn pop_known(&mut self) -> Record
        requires { 0 < length (known_records self.old) }
        // The end stays that of the same ring.
        ensures ring { SameReceiver self.old self.new }
        // The record that is taken is the first of those that are known to be in the ring.
        ensures received { Takes result self.old self.new }
        // The ring stays the ring of the same lane.
        ensures whose { whose_received self.new ≡ whose_received self.old }
        // Where no witness is kept, no release was taken since one was given out.
        ensures untold { KeepsWitness self.old self.new }
    {
        let Sent { entry, told } = self.ring.pop_known();
        if is_release(entry) {
            self.told = told;
            self.is_told = true;
        }
        entry
    }

    /// Takes the next record that is known to be in the ring, if one is, as [`pop_known`](Self::pop_known) does.
    #[inline(always)]
    pub fn next_known(&mut self) -> Option<Record>
        // The end stays that of the same ring.
        ensures ring { SameReceiver self.old self.new }
        // The next of the records that are known to be in the ring is taken, if there is one.
        ensures next { TakesNext self.old self.new result }
        // The ring stays the ring of the same lane.
        ensures whose { whose_received self.new ≡ whose_received self.old }
        // Where no witness is kept, no release was taken since one was given out.
        ensures untold { KeepsWitness self.old self.new }
    {
        let known = self.cached_slots();
        if known == 0 {
            return None;
        }
        let next = self.pop_known();
        Some(next)
    }

    /// Takes the next record, if there is one, as [`pop_known`](Self::pop_known) does. It looks at the ring only if none is known.
    pub fn pop(&mut self) -> Option<Record>
        ensures ring { SameReceiver self.old self.new }
        ensures some { IfSome result (λ x. received self.new ≡ received self.old ++ x ∷ []) }
        ensures none { IfNone result ((received self.new ≡ received self.old) × (known_records self.new ≡ [])) }
        // The ring stays the ring of the same lane.
        ensures whose { whose_received self.new ≡ whose_received self.old }
        // Where no witness is kept, no release was taken since one was given out.
        ensures untold { KeepsWitness self.old self.new }
    {
        if self.cached_slots() == 0 {
            if self.slots() == 0 {
                return None;
            }
        }
        Some(self.pop_known())
    }

    /// Takes the witness of the last release that was taken, if it wasn't taken before: the lane had logged all that was taken up to
    /// that release.
    pub fn take_witness(&mut self) -> Option<Witness>
        ensures ring { SameReceiver self.old self.new }
        ensures received { SameRecords self.old self.new }
        // The ring stays the ring of the same lane.
        ensures whose { whose_received self.new ≡ whose_received self.old }
        // A witness that was given out is kept no more.
        ensures left { self.new.told ≡ [] }
        // A witness that is given out is that of the last release taken: its lane had logged just what was taken up to
        // that release.
        ensures told { MatchOption result (self.old.told ≡ []) (λ w. GivesWitness w self.old) }
    {
        if !self.is_told {
            return None;
        }
        let told = mem::replace(&mut self.told, Told::nothing());
        self.is_told = false;
        Some(told.into_witness())
    }
}
