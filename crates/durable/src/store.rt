//! The store: a heap whose sections survive a crash whole or not at all (Atlas, OOPSLA 2014).
ghost use Rattle.std.specs.Prelude.{◌≡◌, ◌≢◌, ◌⊎◌, ◌+◌, ◌-◌, ◌<◌, ◌≤◌, ◌^◌, ℕ, [], true, false, length, Ok, IfErr, IfOk, IsErrOf, OnErr, OnOk};
ghost use Rattle.heap_model.specs.Setting.{Setting};
ghost use Rattle.image_parts.specs.Layout.{IsLayout};
ghost use Rattle.durable.specs.Begin.{HasRows, IsSettingOf};
ghost use Rattle.store_memory.specs.Memory.{lane_in};
ghost use Rattle.heap_model.specs.Past.{Past, applied, no_past};
ghost use Rattle.store_memory.specs.Remembers.{Remembers};
ghost use Rattle.store_memory.specs.Sections.{TellsSections};
ghost use Rattle.durable.specs.Store.{HasPast};
ghost use Rattle.durable.specs.Steps.{Applies, GoesHome, Logs, Settles, Trims};
ghost use Rattle.durable.specs.Stops.{AnswersClose, BeginsWith, ClosesAtHome, ClosesForGood, ClosesWritten, HasAcknowledged, HasFirstValue, HasTrimmed, HasValue, ReadsAcknowledged, RefusesToClose, RestsAcknowledged, ShowsAtStop, StandsAtStop};

use crate::beginning::fields_of;
use crate::doubt::Doubt;
use crate::rows::{kept_cut, starts};
use block_disk::Disk;
use heap_model::{FieldId, Lane, Record, StoreError};
use image::{GuardRow, Layout, Recovered, RecoveredParts};
use std::alloc::{AllocError, Global};
use std::marker::Model;
use store_image::{Committed, Home, is_trimmed, log_records, settle, trim, write_home};
use store_memory::{Applied, LoggedSections};

/// A heap whose sections survive a crash whole or not at all, on a device of its own.
///
/// It is told the lanes' records as they come ([`apply`](Store::apply)), makes them durable ([`log_step`](Store::log_step)), writes
/// logged values home ([`home_step`](Store::home_step)) and acknowledges the stable cut ([`settle`](Store::settle)). What is acknowledged may be
/// forgotten ([`trim`](Store::trim)), so that its memory and its area of the device last for ever. Whatever a crash leaves of its
/// device, at any moment of any call, stands for the heap of the acknowledged cut, or while it settles for that of the old one or of the
/// new one. It writes nothing but its image, and of
/// that neither header nor guard rows. All its memory is taken by [`adopt`](Store::adopt).
///
/// Contracts see what it knows as plain data beside its device, and say which pasts it has: what it was told, and what
/// became of that. Each call that applies or writes has one clause, a relation whose parts stand in `specs/Steps.antt`, each with
/// its sentence. After a `Fault` every such call answers `Failed`; what there is to read stays.
#[derive(Drop)]
pub struct Store<D: Disk> {
    pub(crate) disk: D,
    pub(crate) layout: Layout,
    pub(crate) committed: Committed,
    pub(crate) applied: Applied,
    pub(crate) sections: LoggedSections,
    pub(crate) has_failed: bool,
    pub(crate) doubt: Doubt,
}

impl<D: Disk> Model for Store<D> {
    ghost use Rattle.heap_model.specs.Setting.{Setting};
    ghost use Rattle.heap_model.specs.Past.{Past};
    ghost use Rattle.durable.specs.Store.{HasPast, Parts};

    ghost Value = { Parts D };

    ghost view = { λ x. record { disk = x.disk; known = record { layout = x.layout; committed = x.committed; memory = x.applied; logged = x.sections; has_failed = x.has_failed; doubt = x.doubt } } };

    ghost invariant = { λ x. (s : Setting) × (p : Past) × HasPast (record { layout = x.layout; committed = x.committed; memory = x.applied; logged = x.sections; has_failed = x.has_failed; doubt = x.doubt }) s p (D.device x.disk) };
}

impl<D: Disk> Store<D> {
    /// Takes over a device with empty logs. Release numbers stay at `last` or below.
    ///
    /// It takes all the memory that the store will need: for each record of each lane's area what the undo log keeps of it,
    /// the record itself, twice what the graph of sections takes, which forgets late, and a word. After want of memory the device
    /// is given back as it was.
    pub fn adopt(
        alloc: Global,
        recovered: Recovered<D>,
        last: u64,
    ) -> Result<Store<D>, (Recovered<D>, AllocError)>
        requires last { last ≤ 2 ^ 40 - 1 }
        // A store that takes over a recovered device was told nothing, and its device agrees. Every monitor is free.
        ensures past { BeginsWith D.device recovered.layout recovered.guards recovered.heap last result }
        // A new store hasn't failed.
        ensures running { IfOk result (λ x. x.known.has_failed ≡ false) }
        // A new store has the recovered device.
        ensures disk { IfOk result (λ x. x.disk ≡ recovered.disk) }
        ensures layout { IfOk result (λ x. x.known.layout ≡ recovered.layout) }
        // A store begins with the sequence of what was recovered.
        ensures sequence { IfOk result (λ x. x.known.committed.sequence ≡ recovered.sequence) }
        // After want of memory the device is given back as it was.
        ensures refused { IfErr result (λ back. back.0 ≡ recovered) }
    {
        let RecoveredParts {
            disk,
            layout,
            guards,
            slot,
            sequence,
            heap,
        } = recovered.into_parts();
        match memory(alloc, &layout, &guards, &heap, last) {
            Ok((applied, sections)) => Ok(Store {
                disk,
                layout,
                committed: Committed::empty(slot, sequence),
                applied,
                sections,
                has_failed: false,
                doubt: Doubt::Nothing,
            }),
            Err(error) => Err((
                Recovered::of(disk, layout, guards, slot, sequence, heap),
                error,
            )),
        }
    }

    /// Applies the lane's next record, in memory alone and in constant time.
    ///
    /// Refusals, in this order: `Failed`; `BadLane`; `BadId` (also a store of a transient field, which no log keeps); `Worn` (the release number is the last or more, or a section would
    /// begin at place 2^62 or later); `NotNext`; `TooLong`; `LogFull`. A refusal changes nothing.
    #[inline(always)]
    pub fn apply(&mut self, lane: Lane, next: Record) -> Result<(), StoreError>
        ensures { Applies D.device self.old self.new lane.0 next result }
    {
        if self.has_failed {
            return Err(StoreError::Failed);
        }
        self.applied.apply(lane, next)
    }

    /// Makes all applied records of all lanes durable, and answers how many there were.
    ///
    /// It takes a write for each record, a sync and the calls of a commit; with no record it takes no call. The time is linear
    /// in the records. Refusals, in this order: `Failed`; `Worn`: there are records, and the control's sequence is at its last
    /// value; `Fault`. After the first two nothing has changed.
    pub fn log_step(&mut self) -> Result<u64, StoreError>
        ensures { Logs D.device self.old self.new result }
    {
        if self.has_failed {
            return Err(StoreError::Failed);
        }
        let fresh = self.applied.fresh();
        match log_records(
            &mut self.disk,
            &self.layout,
            &mut self.committed,
            &self.applied,
        ) {
            Ok(count) => {
                self.sections.push_all(fresh);
                self.applied.logged_all();
                Ok(count)
            }
            Err(reason) => match reason {
                StoreError::Fault => {
                    self.has_failed = true;
                    self.doubt = Doubt::Logging;
                    Err(reason)
                }
                _ => Err(reason),
            },
        }
    }

    /// Writes the least dirty field's logged value into its home cell, in one write, or answers that no field is dirty.
    ///
    /// With no dirty field it takes no call of the device. It looks at one word for each 4,096 fields. Refusals, in this order:
    /// `Failed`, after which nothing has changed; `Fault`.
    pub fn home_step(&mut self) -> Result<Home, StoreError>
        ensures { GoesHome D.device self.old self.new result }
    {
        if self.has_failed {
            return Err(StoreError::Failed);
        }
        let Some(field) = self.applied.least_dirty() else {
            return Ok(Home::Done);
        };
        let value = self.applied.logged_value(field);
        match write_home(&mut self.disk, &self.layout, field, value) {
            Ok(()) => {
                self.applied.home_written(field);
                Ok(Home::Wrote(field))
            }
            Err(reason) => {
                self.has_failed = true;
                self.doubt = Doubt::Nothing;
                Err(reason)
            }
        }
    }

    /// Makes the home cells durable, and then acknowledges the stable cut of what is logged.
    ///
    /// It takes a sync and the calls of a commit. The time is linear in the records since the lanes' starts. Refusals, in this
    /// order: `Failed`; `Unwritten`: a field is dirty; `Worn`: the control's sequence is at its last value; `Fault`. But for
    /// the last nothing has changed.
    pub fn settle(&mut self) -> Result<(), StoreError>
        ensures { Settles D.device self.old self.new result }
    {
        if self.has_failed {
            return Err(StoreError::Failed);
        }
        if self.applied.least_dirty().is_some() {
            return Err(StoreError::Unwritten);
        }
        let stable = self.sections.stable();
        match settle(
            &mut self.disk,
            &self.layout,
            &mut self.committed,
            &stable.cut,
            &stable.places,
        ) {
            Ok(()) => Ok(()),
            Err(reason) => match reason {
                StoreError::Fault => {
                    self.has_failed = true;
                    self.doubt = Doubt::Settling;
                    Err(reason)
                }
                _ => Err(reason),
            },
        }
    }

    /// Forgets what is acknowledged: moves each lane's start behind its settled records, durably, so that their places on the
    /// device and what the memory kept of them are free again.
    ///
    /// It takes the calls of a commit; with nothing to move it takes no call. Over many trims the time is linear in the records
    /// forgotten, and in each in the number of lanes; no memory is taken. Refusals, in this order: `Failed`; `Worn`: there is
    /// something to move, and the control's sequence is at its last value; `Fault`. After the first two nothing has changed.
    pub fn trim(&mut self) -> Result<(), StoreError>
        ensures { Trims D.device self.old self.new result }
    {
        if self.has_failed {
            return Err(StoreError::Failed);
        }
        if is_trimmed(&self.committed) {
            return Ok(());
        }
        match trim(&mut self.disk, &self.layout, &mut self.committed) {
            Ok(()) => {
                // Not before: until the new control is durable, the old one counts, and wants the records at these places.
                self.applied.start_at(&starts(&self.committed.rows));
                self.sections.forget_to(&kept_cut(&self.committed.rows));
                Ok(())
            }
            Err(reason) => match reason {
                StoreError::Fault => {
                    self.has_failed = true;
                    self.doubt = Doubt::Trimming;
                    Err(reason)
                }
                _ => Err(reason),
            },
        }
    }

    /// How many sections of the lane are acknowledged.
    pub fn acknowledged(&self, lane: Lane) -> u64
        requires { lane.0 < self.now.known.layout.lanes }
        // The answer is how many sections of the lane are acknowledged.
        ensures { HasAcknowledged D.device self.now lane.0 result }
    {
        self.committed.rows[usize::from(lane.0)].kept
    }

    /// The field's value after all applied stores. A transient field has its first one, since none of its stores is applied.
    pub fn heap_value(&self, field: FieldId) -> u64
        requires { field.0 < self.now.known.layout.fields }
        // The answer is the field's value after all that was applied.
        ensures value { HasValue D.device self.now field.0 result }
        // The applied value of a transient field is its first value.
        ensures transient { HasFirstValue D.device self.now field.0 result }
    {
        self.applied.value(field)
    }

    /// The first place of the lane that wasn't trimmed: so many of its records are no longer needed.
    pub fn trimmed(&self, lane: Lane) -> u64
        requires { lane.0 < self.now.known.layout.lanes }
        // The answer is the place up to which the lane's records were trimmed.
        ensures { HasTrimmed D.device self.now lane.0 result }
    {
        self.applied.start(lane)
    }

    /// Its device, to look at. Until a call has failed, what it reads and what a crash leaves of it stand for the acknowledged
    /// sections, and for no other cut.
    pub fn disk(&self) -> &D
        ensures disk { result.now ≡ self.now.disk }
        // What a store that hasn't failed reads stands for exactly the acknowledged cut.
        ensures at_rest { ReadsAcknowledged D.device self.now result.now }
        // What a crash leaves of a store that hasn't failed, between two calls, stands for exactly the acknowledged
        // cut.
        ensures crash { RestsAcknowledged D.device self.now result.now }
    {
        &self.disk
    }

    /// The layout of its image.
    pub fn layout(&self) -> Layout
        ensures { result ≡ self.now.known.layout }
    {
        self.layout
    }

    /// The device, if nothing is left to do: its home cells are the heap after all that was applied, but that of a transient
    /// field, which has its first value there; all of that is acknowledged, and whatever a crash leaves stands for it.
    ///
    /// Refusals, in this order: `Failed`; `Unfinished`: a lane holds a monitor; `Unwritten`: a record isn't logged, a field is
    /// dirty, or a logged section that has ended isn't acknowledged. After a refusal the store is given back as it was.
    pub fn close(self) -> Result<D, (Store<D>, StoreError)>
        // A store that is closed has nothing open, unlogged, dirty or unacknowledged.
        ensures ok { ClosesWritten D.device self result }
        // A closed store's home cells of persistent fields are the values after all that was applied.
        ensures home { ClosesAtHome D.device self result }
        // Whatever a crash leaves after a closing stands for the values after all that was applied, with each transient
        // field at its first value.
        ensures stands { ClosesForGood D.device self result }
        ensures disk { IfOk result (λ disk. disk ≡ self.disk) }
        // A store isn't closed where it has failed or something is open, unlogged, dirty or unacknowledged. The first
        // of these is the reason.
        ensures refused { RefusesToClose D.device self result }
        // A store that isn't closed is given back as it was.
        ensures back { IfErr result (λ back. back.0 ≡ self) }
    {
        match self.is_closable() {
            Ok(()) => Ok(self.disk),
            Err(reason) => Err((self, reason)),
        }
    }

    // Whether nothing is left to do, and else why not.
    fn is_closable(&self) -> Result<(), StoreError>
        ensures { AnswersClose D.device self.now result }
    {
        if self.has_failed {
            return Err(StoreError::Failed);
        }
        if self.applied.any_open() {
            return Err(StoreError::Unfinished);
        }
        let is_logged = self.applied.fresh().is_empty();
        let is_home = self.applied.least_dirty().is_none();
        let is_acknowledged = self.sections.is_all_within(&kept_cut(&self.committed.rows));
        if is_logged && is_home && is_acknowledged {
            Ok(())
        } else {
            Err(StoreError::Unwritten)
        }
    }

    /// The device, as it is: as a stop leaves it.
    pub fn into_disk(self) -> D
        ensures disk { result ≡ self.disk }
        // Whatever a crash leaves of a store's device at its end shows its past, or what the step in doubt would have
        // made of it.
        ensures shown { ShowsAtStop D.device self result }
        // Whatever a crash leaves of a store's device at its end stands for the acknowledged heap, or for the one that
        // the settling in doubt would have acknowledged.
        ensures crash { StandsAtStop D.device self result }
        // What a crash leaves of a store that hasn't failed, between two calls, stands for exactly the acknowledged
        // cut.
        ensures at_rest { RestsAcknowledged D.device self result }
    {
        self.disk
    }
}

// The memory of a store that was told nothing: what is applied, and what is logged.
fn memory(
    alloc: Global,
    layout: &Layout,
    guards: &[GuardRow],
    heap: &[u64],
    last: u64,
) -> Result<(Applied, LoggedSections), AllocError>
    requires layout { IsLayout layout.now }
    requires rows { HasRows layout.now guards.now }
    requires heap { length heap.now ≡ layout.now.fields }
    ensures remembers { (s : Setting) → IsSettingOf layout.now guards.now heap.now last s → IfOk result (λ m. Remembers s m.0 no_past) }
    ensures lanes { IfOk result (λ m. (length m.0.lanes ≡ layout.now.lanes) × (m.0.capacity ≡ layout.now.capacity)) }
    ensures starts { IfOk result (λ m. (l : ℕ) → (lane_in m.0.lanes l).start ≡ 0) }
    ensures logged { IfOk result (λ m. TellsSections m.1 (λ l. 0) []) }
    ensures logged_lanes { IfOk result (λ m. (m.1.lanes ≡ layout.now.lanes) × (m.1.capacity ≡ layout.now.capacity)) }
{
    let fields = fields_of(alloc, guards, heap)?;
    let applied = Applied::new(
        alloc,
        layout.lanes,
        layout.capacity,
        layout.objects,
        fields,
        last,
    )?;
    let sections = LoggedSections::with_capacity(alloc, layout.lanes, layout.capacity)?;
    Ok((applied, sections))
}
