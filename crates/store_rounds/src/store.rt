//! The store.
ghost use Rattle.std.specs.Prelude.{◌≡◌, ◌<◌, ◌≤◌, ◌+◌, ◌-◌, ◌^◌, ℕ, false, IfErr, IfOk};
ghost use Rattle.store_rounds.specs.Steps.{Applies, IsHome};
ghost use Rattle.store_rounds.specs.Stops.{BeginsWith, HasAcknowledged, HasFirstValue, HasTrimmed, HasValue, RestsAcknowledged, ShowsAtStop};

use crate::beginning::new_memory;
use block_disk::Disk;
use heap_model::{FieldId, Lane, LaneRecord, ObjectId, Record, StoreError, UndoRecord};
use image::{Layout, Recovered, RecoveredParts};
use std::alloc::{AllocError, Global};
use std::marker::Model;
use store_image::Committed;
use store_memory::{Applied, LoggedSections};
use store_round_image::HomeValue;
use store_round_memory::RoundMemory;

/// A heap whose sections survive a crash whole or not at all, on a device of its own, made durable by rounds.
///
/// All its memory is taken by [`adopt`](RoundStore::adopt). Contracts see what it knows as plain data beside its device, and say which
/// pasts it has: what it was told, and what became of that. After a `Fault` every call that applies or writes answers `Failed`; what
/// there is to read stays.
#[derive(Drop)]
pub struct RoundStore<D: Disk> {
    pub(crate) disk: D,
    pub(crate) layout: Layout,
    /// The first lanes, which are the threads'. The helper's is the next one, where the image has one more.
    pub(crate) threads: u8,
    pub(crate) committed: Committed,
    pub(crate) applied: Applied,
    /// The sections of all that was applied.
    pub(crate) sections: LoggedSections,
    /// The kept heap, and what of all that was applied it doesn't have.
    pub(crate) rounds: RoundMemory,
    /// By field.
    pub(crate) guards: Vec<ObjectId>,
    /// What the cells of fields are to have, and live records of the helper's lane store.
    pub(crate) pending: Vec<HomeValue>,
    /// Room for the cells that a round writes, and for the records of its sections.
    pub(crate) cells: Vec<HomeValue>,
    pub(crate) helper: Vec<UndoRecord>,
    pub(crate) has_failed: bool,
}

impl<D: Disk> Model for RoundStore<D> {
    ghost use Rattle.heap_model.specs.Setting.{Setting};
    ghost use Rattle.heap_model.specs.Past.{Past};
    ghost use Rattle.std.specs.Prelude.{length, vec_capacity};
    ghost use Rattle.store_rounds.specs.Store.{HasPast, HasRoom, Parts};

    ghost Value = { Parts D };

    ghost view = { λ x. record { disk = x.disk; known = record { layout = x.layout; threads = x.threads; committed = x.committed; memory = x.applied; sections = x.sections; rounds = x.rounds; guards = x.guards.items; pending = x.pending.items; has_failed = x.has_failed } } };

    ghost invariant = { λ x. HasRoom x.layout (length x.pending.items) (vec_capacity x.pending) (vec_capacity x.cells) (vec_capacity x.helper)
        × ((s : Setting) × (p : Past) × HasPast (record { layout = x.layout; threads = x.threads; committed = x.committed; memory = x.applied; sections = x.sections; rounds = x.rounds; guards = x.guards.items; pending = x.pending.items; has_failed = x.has_failed }) s p (D.device x.disk)) };
}

impl<D: Disk> RoundStore<D> {
    /// Takes over a device with empty logs. The first `threads` lanes are the threads'; where the image has one more, that is the
    /// helper's, and rounds take two syncs. Release numbers stay at `last` or below.
    ///
    /// It takes all the memory that the store will need. After want of memory the device is given back as it was.
    pub fn adopt(
        alloc: Global,
        recovered: Recovered<D>,
        threads: u8,
        last: u64,
    ) -> Result<RoundStore<D>, (Recovered<D>, AllocError)>
        requires last { last ≤ 2 ^ 40 - 1 }
        requires some { 1 ≤ threads }
        requires within { threads ≤ recovered.layout.lanes }
        requires most { recovered.layout.lanes ≤ threads + 1 }
        // A store that takes over a recovered device was told nothing, and its device agrees. Every monitor is free.
        ensures past { BeginsWith D.device recovered.layout recovered.guards recovered.heap last result }
        // A new store hasn't failed.
        ensures running { IfOk result (λ x. x.known.has_failed ≡ false) }
        // A new store has the recovered device.
        ensures disk { IfOk result (λ x. x.disk ≡ recovered.disk) }
        ensures layout { IfOk result (λ x. x.known.layout ≡ recovered.layout) }
        ensures threads { IfOk result (λ x. x.known.threads ≡ threads) }
        // A store begins with the sequence of what was recovered.
        ensures sequence { IfOk result (λ x. x.known.committed.sequence ≡ recovered.sequence) }
        // After want of memory the device is given back as it was.
        ensures refused { IfErr result (λ back. back.0 ≡ recovered) }
    {
        let RecoveredParts {
            disk,
            layout,
            guards,
            slot,
            sequence,
            heap,
        } = recovered.into_parts();
        match new_memory(alloc, &layout, threads, &guards, &heap, last) {
            Ok((memories, lists)) => Ok(RoundStore {
                disk,
                layout,
                threads,
                committed: Committed::empty(slot, sequence),
                applied: memories.applied,
                sections: memories.sections,
                rounds: memories.rounds,
                guards: lists.guards,
                pending: lists.pending,
                cells: lists.cells,
                helper: lists.helper,
                has_failed: false,
            }),
            Err(error) => Err((
                Recovered::of(disk, layout, guards, slot, sequence, heap),
                error,
            )),
        }
    }

    /// Applies the lane's next record, in memory alone and in constant time.
    ///
    /// Refusals, in this order: `Failed`; `BadLane` (also the helper's lane); `BadId` (also a store of a transient field, which no log
    /// keeps); `Worn` (the release number is the last or more, or a section would begin at place 2^62 or later); `NotNext`; `TooLong`;
    /// `LogFull`. A refusal changes nothing.
    #[inline(always)]
    pub fn apply(&mut self, lane: Lane, next: Record) -> Result<(), StoreError>
        ensures { Applies D.device self.old self.new lane.0 next result }
    {
        if self.has_failed {
            return Err(StoreError::Failed);
        }
        match self.applied.apply(lane, next) {
            Ok(()) => {
                // Each lane stays within its area, so that both below have room.
                let _fresh = self.applied.fresh();
                self.sections.push(lane, next);
                self.rounds.add(LaneRecord { lane, record: next });
                Ok(())
            }
            Err(reason) => Err(reason),
        }
    }

    /// How many sections of the lane are acknowledged.
    pub fn acknowledged(&self, lane: Lane) -> u64
        requires { lane.0 < self.now.known.threads }
        // The answer is how many sections of the lane are acknowledged.
        ensures { HasAcknowledged D.device self.now lane.0 result }
    {
        self.committed.rows[usize::from(lane.0)].kept
    }

    /// The field's value after all applied stores. A transient field has its first one, since none of its stores is applied.
    pub fn heap_value(&self, field: FieldId) -> u64
        requires { field.0 < self.now.known.layout.fields }
        // The answer is the field's value after all that was applied.
        ensures value { HasValue D.device self.now field.0 result }
        // The applied value of a transient field is its first value.
        ensures transient { HasFirstValue D.device self.now field.0 result }
    {
        self.applied.value(field)
    }

    /// The first place of the lane that wasn't trimmed: so many of its records are no longer needed.
    pub fn trimmed(&self, lane: Lane) -> u64
        requires { lane.0 < self.now.known.threads }
        // The answer is the place up to which the lane's records were trimmed.
        ensures { HasTrimmed D.device self.now lane.0 result }
    {
        self.applied.start(lane)
    }

    /// Its device, to look at.
    pub fn disk(&self) -> &D
        ensures disk { result.now ≡ self.now.disk }
        // What a crash leaves of a store that hasn't failed, between two calls, shows just the acknowledged cut.
        ensures crash { RestsAcknowledged D.device self.now result.now }
        // Where no cell waits, each persistent field's cell has what is kept, or a live record stores to the field.
        ensures home { IsHome D.device self.now }
    {
        &self.disk
    }

    /// The layout of its image.
    pub fn layout(&self) -> Layout
        ensures { result ≡ self.now.known.layout }
    {
        self.layout
    }

    /// How many of the image's lanes are the threads'.
    pub fn threads(&self) -> u8
        ensures { result ≡ self.now.known.threads }
    {
        self.threads
    }

    /// The device, as it is: as a stop leaves it.
    pub fn into_disk(self) -> D
        ensures disk { result ≡ self.disk }
        // Whatever a crash leaves of a store's device at its end shows the acknowledged cut of what was applied, or a later one.
        ensures shown { ShowsAtStop D.device self result }
        // What a crash leaves of a store that hasn't failed, between two calls, shows just the acknowledged cut.
        ensures at_rest { RestsAcknowledged D.device self result }
        // Where no cell waits, each persistent field's cell has what is kept, or a live record stores to the field.
        ensures home { IsHome D.device self }
    {
        self.disk
    }
}
