//! A store over a device in memory: of a new image, and of one that was recovered.
ghost use Rattle.std.specs.Prelude.{◌≡◌, false, IfOk, OnOk};
ghost use Rattle.block_disk.specs.Memory.{device_of};
ghost use Rattle.image_parts.specs.Layout.{size_of};
ghost use Rattle.store_image.specs.Formatting.{layout_with};
ghost use Rattle.heap_model.specs.Past.{no_past};
ghost use Rattle.recover.specs.Recovery.{IsTooOld};
ghost use Rattle.script_machine.specs.Limits.{IsFormattable};
ghost use Rattle.script_machine.specs.OfSchema.{IsDiskOf, formatted_device};
ghost use Rattle.script_machine.specs.Reports.{Reopens};
ghost use Rattle.script_machine.specs.StoreCalls.{IsUntold, RestoresOrRefuses};
ghost use Rattle.script_machine.specs.States.{Tells};
ghost use Rattle.script_monitors.specs.Table.{setting_in};

use crate::answer::{Refusal, Report};
use crate::refusals::refused_recovery;
use block_disk::MemDisk;
use durable::Store;
use guards::Schema;
use heap_model::LAST_NUMBER;
use image::{Layout, Recovered};
use recover::{Versions, recover_of};
use std::alloc::{AllocError, Global};

/// Makes and formats a device of the image's size, for so many lanes with room for `capacity` records each: the store over
/// it, and the image's size in bytes.
///
/// A fault of the device is want of memory.
pub(crate) fn format_store(
    alloc: Global,
    schema: &Schema,
    lanes: u8,
    capacity: u32,
) -> Result<(Store<MemDisk>, u64), AllocError>
    requires { IsFormattable lanes capacity }
    ensures size { IfOk result (λ made. made.1 ≡ size_of (layout_with schema.now lanes capacity)) }
    ensures layout { IfOk result (λ made. made.0.known.layout ≡ layout_with schema.now lanes capacity) }
    ensures tells { IfOk result (λ made. Tells made.0 (setting_in schema.now LAST_NUMBER) no_past) }
    ensures running { IfOk result (λ made. made.0.known.has_failed ≡ false) }
    ensures calls { IfOk result (λ made. device_of made.0.disk ≡ formatted_device schema.now (layout_with schema.now lanes capacity)) }
    ensures of_schema { IfOk result (λ made. IsDiskOf schema.now made.0.disk) }
{
    let Some(layout) = Layout::of(schema, lanes, capacity) else {
        unreachable!();
    };
    let size = layout.size();
    let disk = MemDisk::new(alloc, size)?;
    match Store::format(alloc, disk, schema, lanes, capacity) {
        Ok(made) => Ok((adopt(alloc, made)?, size)),
        Err(_) => Err(AllocError),
    }
}

// The store over a device with empty logs.
fn adopt(alloc: Global, recovered: Recovered<MemDisk>) -> Result<Store<MemDisk>, AllocError>
    ensures layout { IfOk result (λ store. store.known.layout ≡ recovered.layout) }
    ensures disk { IfOk result (λ store. store.disk ≡ recovered.disk) }
    ensures running { IfOk result (λ store. store.known.has_failed ≡ false) }
    ensures tells { IfOk result (IsUntold recovered) }
{
    match Store::adopt(alloc, recovered, LAST_NUMBER) {
        Ok(store) => Ok(store),
        Err(_) => Err(AllocError),
    }
}

/// Recovers the device, if its image is of one of these versions: the store over it and what was found, or the device, which
/// is refused. A fault of the device is want of memory.
pub(crate) fn restore(
    alloc: Global,
    disk: MemDisk,
    versions: Versions,
) -> Result<Result<(Store<MemDisk>, Report), (MemDisk, Refusal)>, AllocError>
    ensures running { IfOk result (λ outcome. IfOk outcome (λ made. made.0.known.has_failed ≡ false)) }
    ensures restored { IfOk result (RestoresOrRefuses versions disk) }
    ensures taken { IfOk result (λ outcome. OnOk outcome (IsTooOld versions (device_of disk).now.bytes → ⊥)) }
{
    match recover_of(alloc, disk, versions) {
        Ok((recovered, found)) => Ok(Ok(restored(alloc, recovered, found)?)),
        Err((disk, error)) => Ok(Err((disk, refused_recovery(error)?))),
    }
}

// The store over a device that was recovered, and what is told of that.
fn restored(
    alloc: Global,
    recovered: Recovered<MemDisk>,
    found: recover::Report,
) -> Result<(Store<MemDisk>, Report), AllocError>
    ensures running { IfOk result (λ made. made.0.known.has_failed ≡ false) }
    ensures restored { IfOk result (λ made. Reopens recovered found made.0 made.1) }
{
    let heap = recovered.heap().to_vec(alloc)?;
    let store = adopt(alloc, recovered)?;
    let lanes = store.layout().lanes;
    let report = Report { found, lanes, heap };
    Ok((store, report))
}
