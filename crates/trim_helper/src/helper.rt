//! The helper.
ghost use Rattle.std.specs.Prelude.{◌≡◌, ◌<◌, ◌≤◌, ◌-◌, ◌^◌, [], ℕ, true, false, vec_len, None, MatchOption, OnOk};
ghost use Rattle.store_rounds.specs.Store.{HasPast};
ghost use Rattle.heap_model.specs.Setting.{Setting};
ghost use Rattle.monitor.specs.Views.{GoesOn};
ghost use Rattle.heap_model.specs.Past.{Past, no_past};
ghost use Rattle.trim_helper.specs.Calls.{Drains, DrainsUpTo, HasGoneOn, MakesRound, MayBePublished, Publishes};
ghost use Rattle.trim_helper.specs.Calls.{SettlesUpTo, SharesUpTo};
ghost use Rattle.trim_helper.specs.Heard.{HasSeen, Hears};
ghost use Rattle.trim_helper.specs.Hearing.{IsNoted};
ghost use Rattle.trim_helper.specs.Helping.{IsHelper};
ghost use Rattle.trim_helper.specs.Moves.{most_room};
ghost use Rattle.trim_helper.specs.Parts.{IsServing};
ghost use Rattle.trim_helper.specs.Rings.{received_of};
ghost use Rattle.trim_helper.specs.Seen.{SeesFrom};
ghost use Rattle.thread_rings.specs.declared.ring_records.TheConstants.{MOST_RING_RECORDS};

use crate::draining::drain_rings;
use crate::hearing::catch_up;
use crate::published::publish_all;
use crate::settling::make_durable;
use block_disk::Disk;
use heap_model::{LANES, Lane, Record, StoreError};
use monitor::{HelperSeat, Shared};
use std::marker::Model;
use store_rounds::RoundStore;
use thread_rings::{MOST_RING_RECORDS, Receiver};

/// The helper: it owns the store, applies to it what the sessions send through their rings, makes that durable, and publishes
/// how many sections of each lane are acknowledged and how many of its records are forgotten.
///
/// After a `Fault` each call that applies or writes answers `Failed`, as the store's do; what there is to read stays. Contracts
/// see it as its `Parts`.
#[derive(Drop)]
pub struct Helper<D: Disk> {
    pub(crate) store: RoundStore<D>,
    /// The rings' ends, by lane.
    pub(crate) rings: Vec<Receiver>,
    /// The record of each lane that was taken and waits to be next.
    pub(crate) waiting: [Option<Record>; LANES],
    /// Nothing was applied since a round answered Ok, or since it began.
    pub(crate) is_settled: bool,
    pub(crate) seat: HelperSeat,
}

impl<D: Disk> Model for Helper<D> {
    ghost use Rattle.trim_helper.specs.Parts.{Parts, IsWhole};

    ghost Value = { Parts D };

    ghost view = { λ h. record { store = h.store; rings = h.rings.items; waiting = h.waiting; is_settled = h.is_settled; seat = h.seat } };

    ghost invariant = { λ h. IsWhole D.device (record { store = h.store; rings = h.rings.items; waiting = h.waiting; is_settled = h.is_settled; seat = h.seat }) };
}

impl<D: Disk> Helper<D> {
    /// The helper of a store that runs and has applied nothing. The rings are those of the threads' lanes, lane i's as the i-th, and nothing
    /// was taken from them. The seat is that of their heap, and has published nothing. All is settled: the first round makes no device
    /// call unless something came.
    pub fn new(store: RoundStore<D>, rings: Vec<Receiver>, seat: HelperSeat) -> Helper<D>
        requires lanes { vec_len rings ≡ store.known.threads }
        requires rooms { most_room rings.items ≤ MOST_RING_RECORDS }
        requires untaken { (l : ℕ) → received_of rings.items l ≡ [] }
        requires sees { SeesFrom seat 0 rings.items }
        requires untold { (s : Setting) × HasPast store.known s no_past (D.device store.disk) }
        requires silent { seat.view.notes ≡ [] }
        requires running { store.known.has_failed ≡ false }
        ensures serves { (s : Setting) → HasPast store.known s no_past (D.device store.disk) → IsServing D.device result s no_past }
        ensures parts { (result.store ≡ store) × (result.rings ≡ rings.items) × (result.seat ≡ seat) }
        // A new helper is settled.
        ensures settled { result.is_settled ≡ true }
    {
        Helper {
            store,
            rings,
            waiting: [None; LANES],
            is_settled: true,
            seat,
        }
    }

    /// How many lanes are the threads'.
    pub fn threads(&self) -> u8
        ensures { result ≡ self.now.store.known.threads }
    {
        self.store.threads()
    }

    /// How many sections of the lane are acknowledged.
    pub fn acknowledged(&self, lane: Lane) -> u64
        requires { lane.0 < self.now.store.known.threads }
        ensures { (s : Setting) (p : Past) → IsServing D.device self.now s p → result ≡ p.cut lane.0 }
    {
        self.store.acknowledged(lane)
    }

    /// Applies records that are next in their lanes, in memory alone, until none is, and answers how many. It looks at the rings
    /// again as long as it found something, at most `LOOKS` times, and takes what was there then: of each lane at most `LOOKS` times
    /// the room of the largest ring. A record that the store refuses, as not next, for want of room or at an end of numbers, waits
    /// for the next call.
    ///
    /// It refuses with `Failed` alone; what it applied before stands.
    pub fn drain(&mut self) -> Result<u64, StoreError>
        ensures { Drains D.device self.old self.new result }
    {
        self.drain_within(None)
    }

    // Drains the rings, and applies at most so many records, where a bound is told.
    fn drain_within(&mut self, most: Option<u64>) -> Result<u64, StoreError>
        ensures { DrainsUpTo D.device most self.old self.new result }
    {
        let was_settled = self.is_settled;
        self.is_settled = false;
        let bound = bound_of(most);
        match drain_rings(&mut self.store, &mut self.rings, &mut self.waiting, bound) {
            Ok(count) => {
                self.is_settled = stays_settled(was_settled, count);
                Ok(count)
            }
            Err(reason) => Err(reason),
        }
    }

    // Hears what the rings tell of the one history, and sees that history so far.
    fn hear(&mut self, shared: &Shared)
        requires seat { IsHelper shared.now self.old.seat }
        ensures { Hears shared.now self.old self.new }
    {
        catch_up(shared, &mut self.rings, &mut self.seat);
    }

    /// The first half of a round of at most `most` records. It drains the rings, hears what they tell of the one history, makes durable
    /// what was applied, acknowledges its stable cut and forgets what is acknowledged, so that each lane has its area but for the records
    /// that aren't acknowledged. It publishes nothing. It answers how many records it applied. With nothing applied since the last round
    /// that answered Ok, or since the opening, it makes no device call, and isn't refused.
    ///
    /// A drain that reaches the bound stops there, and what is left in the rings waits for the next call. Each lane gets an equal part of
    /// what remains of the bound, rounded up. `None` is no bound.
    ///
    /// Refusals: `Failed`; `Worn`: a control must be written, and its sequence is at its last value; `Fault`: a call of the device
    /// failed now. What was done before one stands.
    pub fn settle(&mut self, shared: &Shared, most: Option<u64>) -> Result<u64, StoreError>
        requires seat { IsHelper shared.now self.old.seat }
        requires lanes { shared.now.plan.lanes ≡ self.old.store.known.threads }
        // Settling with a bound applies at most so many records. It makes durable what was applied, acknowledges its
        // stable cut and trims that. If it applied fewer, and the store hadn't failed, no record could be applied then.
        ensures settles { (s : Setting) (p : Past) → IsServing D.device self.old s p → SettlesUpTo D.device most s p self.old self.new result }
        // If `settle` reaches its bound, each lane got at least bound/lanes records, unless it had none that could be applied at some moment.
        ensures shares { SharesUpTo D.device most self.old self.new result }
        // After Ok, what is acknowledged may be published.
        ensures ready { OnOk result (MayBePublished D.device self.new) }
        // Settling publishes nothing: what the sessions may have read is what was published before.
        ensures noted { IsNoted self.old.seat self.new.seat }
        ensures goes_on { HasGoneOn shared.now self.old self.new }
        // Unless the store had failed, the helper has seen what it took of each ring, up to the last release of its lane.
        ensures seen { self.old.store.known.has_failed ≡ false → HasSeen shared.now self.new }
        // The history that settling sees goes on from the one that the helper had seen before.
        ensures later { GoesOn self.new.seat.view.history self.old.seat.view.history }
    {
        let count = match self.drain_within(most) {
            Ok(count) => count,
            Err(reason) => return Err(reason),
        };
        self.hear(shared);
        if self.is_settled {
            return Ok(count);
        }
        if let Err(reason) = make_durable(&mut self.store) {
            return Err(reason);
        }
        Ok(count)
    }

    /// The second half of a round: publishes by lane what is acknowledged and trimmed. It makes no call of the device. It may follow a
    /// [`settle`](Helper::settle) that answered Ok, with nothing between.
    pub fn publish(&mut self, shared: &Shared)
        requires seat { IsHelper shared.now self.old.seat }
        requires lanes { shared.now.plan.lanes ≡ self.old.store.known.threads }
        requires durable { MayBePublished D.device self.old }
        // Publishing changes neither the store nor its device: what a session reads meanwhile is durable already.
        ensures { Publishes D.device shared.now self.old self.new }
    {
        if self.is_settled {
            return;
        }
        publish_all(&self.store, shared, &mut self.seat);
        self.is_settled = true;
    }

    /// A round: [`settle`](Helper::settle), and then, if that answered Ok, [`publish`](Helper::publish). It answers how many records it
    /// applied. With nothing applied since the last round that answered Ok, or since the opening, it makes no device call, and isn't
    /// refused.
    ///
    /// Refusals: `Failed`; `Worn`: a control must be written, and its sequence is at its last value; `Fault`: a call of the device
    /// failed now. What was done before one stands, and nothing is published.
    pub fn round(&mut self, shared: &Shared) -> Result<u64, StoreError>
        requires seat { IsHelper shared.now self.old.seat }
        requires lanes { shared.now.plan.lanes ≡ self.old.store.known.threads }
        // A round is one with no bound.
        ensures { MakesRound D.device shared.now None self.old self.new result }
    {
        self.bounded_round(shared, None)
    }

    /// A round of at most `most` records: [`settle`](Helper::settle), and then, if that answered Ok, [`publish`](Helper::publish). So a
    /// round stays short, however much the rings hold. What is left in them waits for the next round. `None` is no bound. It is refused
    /// as [`round`](Helper::round) is.
    pub fn bounded_round(&mut self, shared: &Shared, most: Option<u64>) -> Result<u64, StoreError>
        requires seat { IsHelper shared.now self.old.seat }
        requires lanes { shared.now.plan.lanes ≡ self.old.store.known.threads }
        // A round applies what is next, within the bound, makes it durable, acknowledges and publishes its stable cut. It shares the bound
        // equally among the lanes, and sees one legal history, which has all that it applied.
        ensures { MakesRound D.device shared.now most self.old self.new result }
    {
        match self.settle(shared, most) {
            Ok(count) => {
                self.publish(shared);
                Ok(count)
            }
            Err(reason) => Err(reason),
        }
    }

    /// Its store, as it is. What waits and what is in the rings is dropped.
    pub fn into_store(self) -> RoundStore<D>
        ensures { result ≡ self.store }
    {
        let Helper { store, .. } = self;
        store
    }
}

// The bound as a number. With no bound it is more than a drain can apply.
fn bound_of(most: Option<u64>) -> u64
    ensures { MatchOption most (result ≡ 2 ^ 64 - 1) (λ told. result ≡ told) }
{
    match most {
        Some(told) => told,
        None => u64::MAX,
    }
}

// Whether all is settled still: where it was, and nothing was applied.
fn stays_settled(was_settled: bool, count: u64) -> bool
    ensures settled { result ≡ true → (was_settled ≡ true) × (count ≡ 0) }
    ensures stays { count ≡ 0 → was_settled ≡ true → result ≡ true }
{
    was_settled && count == 0
}
