//! Calls of the store for all fields, or for all lanes.
ghost use Rattle.std.specs.Prelude.{◌≡◌, false, true, length, IfOk, IfErr, IsErrOf, OnOk, OnErr};
ghost use Rattle.block_disk.specs.Device.{HasCause};
ghost use Rattle.block_disk.specs.Memory.{device_of};
ghost use Rattle.script_monitors.specs.Table.{IsStepOf, setting_of};
ghost use Rattle.heap_model.specs.declared.store_error.StoreError.TheVariants.{Fault};
ghost use Rattle.script_machine.specs.StoreCalls.{BringsAllHome, HasAcknowledged, HasApplied, KeepsEvent, RefusesEvent, RefusesHomes, RestsUnlessFault, ShowsTold, StandsTold};

use crate::logged::record_of;
use block_disk::MemDisk;
use durable::{Home, Store, StoreError};
use heap_model::{Event, FieldId, Lane};
use script_monitors::Monitors;
use std::alloc::{AllocError, Global};

/// Keeps the record of the thread's event, if it has one. A refusal changes nothing.
pub(crate) fn keep_record(
    store: &mut Store<MemDisk>,
    monitors: &Monitors,
    thread: Lane,
    event: &Event,
) -> Result<(), StoreError>
    requires { IsStepOf (setting_of monitors.now) event.now }
    ensures kept { OnOk result (KeepsEvent monitors.now thread.0 event.now store.old store.new) }
    ensures refused { IfErr result (RefusesEvent monitors.now thread.0 event.now store.old) }
    ensures err { OnErr result (store.new ≡ store.old) }
    ensures running { store.old.known.has_failed ≡ false → store.new.known.has_failed ≡ false }
{
    match record_of(monitors, event) {
        None => Ok(()),
        Some(next) => store.apply(thread, next),
    }
}

/// Takes home steps until no field is dirty, and answers how many cells were written.
///
/// Refusals: `Failed` where the device had failed before, after which nothing has changed; `Fault` where it fails now, after
/// which the store has failed. A crash at any moment of it leaves what stands for the acknowledged sections, as a crash
/// before it does.
pub(crate) fn write_homes(store: &mut Store<MemDisk>) -> Result<u64, StoreError>
    ensures homes { BringsAllHome store.old store.new result }
    ensures running { store.old.known.has_failed ≡ false → OnOk result (store.new.known.has_failed ≡ false) }
    ensures layout { store.new.known.layout ≡ store.old.known.layout }
    ensures sequence { store.new.known.committed.sequence ≡ store.old.known.committed.sequence }
    ensures shown { ShowsTold store.old store.new result }
    ensures any_moment { StandsTold store.old store.new result }
    ensures refused { RefusesHomes store.old result }
    ensures err { RestsUnlessFault store.old store.new result }
    ensures failed { IsErrOf result Fault → store.new.known.has_failed ≡ true }
    ensures cause { HasCause (device_of store.old.disk).failures (device_of store.new.disk).failures Fault result }
{
    let fields = store.layout().fields;
    // A step writes a greater field than the one before it, so no field is dirty after as many steps as there are fields.
    for written in 0..fields {
        match store.home_step() {
            Ok(Home::Wrote(_)) => {}
            Ok(Home::Done) => return Ok(u64::from(written)),
            Err(why) => return Err(why),
        }
    }
    Ok(u64::from(fields))
}

/// The applied value of each field, by number.
pub(crate) fn applied_values(alloc: Global, store: &Store<MemDisk>) -> Result<Vec<u64>, AllocError>
    ensures count { IfOk result (λ v. length v.items ≡ store.now.known.layout.fields) }
    ensures values { IfOk result (λ v. HasApplied store.now v.items) }
{
    let fields = store.layout().fields;
    let mut values = Vec::with_capacity(alloc, fields as usize)?;
    for field in 0..fields {
        values.push(store.heap_value(FieldId(field)))?;
    }
    Ok(values)
}

/// How many sections of each lane are acknowledged.
pub(crate) fn acknowledged_counts(
    alloc: Global,
    store: &Store<MemDisk>,
) -> Result<Vec<u64>, AllocError>
    ensures count { IfOk result (λ v. length v.items ≡ store.now.known.layout.lanes) }
    ensures counts { IfOk result (λ v. HasAcknowledged store.now v.items) }
{
    let lanes = store.layout().lanes;
    let mut counts = Vec::with_capacity(alloc, usize::from(lanes))?;
    for lane in 0..lanes {
        counts.push(store.acknowledged(Lane(lane)))?;
    }
    Ok(counts)
}
