//! The lane's end of a ring.

ghost use Rattle.std.specs.Prelude.{◌≡◌, ◌+◌, ◌<◌, ◌≤◌, [], ◌∷◌, ◌++◌, Some, false, length};
ghost use Rattle.rtrb.specs.Ring.{SameProducer, known_free, producer_capacity};
ghost use Rattle.monitor.specs.Seats.{IsSeatOf};
ghost use Rattle.thread_rings.specs.Following.{is_release, logged_in, whose};
ghost use Rattle.thread_rings.specs.Rings.{SenderLooked, Sends, sent, whose_ring};

use crate::sent::{Following, Sent};
use heap_model::Record;
use monitor::{Seat, Shared, Told};
use rtrb::Producer;
use std::alloc::Global;
use std::marker::Model;

/// The lane's end of a ring. Contracts see it as its `Producer`.
#[derive(Drop)]
pub struct Sender {
    pub(crate) ring: Producer<Sent, Global, Following>,
}

impl Model for Sender {
    ghost use Rattle.thread_rings.specs.Rings.{IsBegun, Sending};

    ghost Value = { Sending };

    ghost view = { λ s. s.ring };

    ghost invariant = { λ s. IsBegun s.ring };
}

impl Sender {
    /// How many slots of the ring are known to be free.
    #[inline(always)]
    pub fn cached_slots(&self) -> usize
        ensures { result ≡ known_free self.now }
    {
        self.ring.cached_slots()
    }

    /// Looks how many slots of the ring are free: as many as it has, less what was sent, and one more for each record that was
    /// taken.
    #[inline(always)]
    pub fn slots(&mut self) -> usize
        // A look loses nothing.
        ensures looked { SenderLooked self.old self.new }
        ensures value { result ≡ known_free self.new }
        // After a look at least the ring's slots less the records sent are known to be free.
        ensures least { producer_capacity self.old ≤ known_free self.new + length (sent self.old) }
    {
        self.ring.slots()
    }

    /// Sends a record that frees no monitor.
    #[inline(always)]
    pub fn push(&mut self, entry: Record)
        requires room { 0 < known_free self.old }
        // No release is sent without a witness.
        requires kind { is_release entry ≡ false }
        // The end stays that of the same ring.
        ensures ring { SameProducer self.old self.new }
        // A record that is sent comes after all that was sent before, and takes one free slot.
        ensures sent { Sends entry self.old self.new }
        // The ring stays the ring of the same lane.
        ensures whose { whose_ring self.new ≡ whose_ring self.old }
    {
        self.ring.push_reserved(Sent {
            entry,
            told: Told::nothing(),
        });
    }

    /// Sends the record that the lane has logged last, with a witness of that. One load of the shared words.
    #[inline(always)]
    pub fn push_told(&mut self, shared: &Shared, seat: &mut Seat, entry: Record)
        requires seat { IsSeatOf shared.now seat.old }
        requires room { 0 < known_free self.old }
        // The witness is of the lane whose ring it is.
        requires whose { whose_ring self.old ≡ Some (whose seat.old) }
        // With each release goes a witness of the lane's own seat, whose events have logged just what was sent of the
        // ring, this record included.
        requires logged { logged_in seat.old.view ≡ sent self.old ++ entry ∷ [] }
        ensures seat { (seat.new.table ≡ seat.old.table) × (seat.new.view ≡ seat.old.view) }
        // The end stays that of the same ring.
        ensures ring { SameProducer self.old self.new }
        // A record that is sent comes after all that was sent before, and takes one free slot.
        ensures sent { Sends entry self.old self.new }
        // The ring stays the ring of the same lane.
        ensures whose { whose_ring self.new ≡ whose_ring self.old }
    {
        let told = Told::of(shared.witness(seat));
        self.ring.push_reserved(Sent { entry, told });
    }
}
