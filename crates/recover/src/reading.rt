//! Reading an image, whatever its bytes are.
ghost use Rattle.std.specs.Prelude.{◌≡◌, ◌≤◌, All, IfOk, length};
ghost use Rattle.block_disk.specs.Device.{SameMoments};
ghost use Rattle.block_disk.specs.Since.{HasCauseSince};
ghost use Rattle.image_parts.specs.Layout.{IsLayout, size_of};
ghost use Rattle.recover_heap.specs.Logs.{AreReplayOf};
ghost use Rattle.recover.specs.Reading.{IsFrontOf, ReadsControl, ReadsFront, ReadsLayout, ReadsLive, ReadsRows};
ghost use Rattle.recover_logs.specs.Tables.{IsLow};
ghost use Rattle.recover_heap.specs.declared.error.RecoverError.TheVariants.{Fault};

use crate::check::check_logs;
use crate::front::Front;
use crate::logged_image::LoggedImage;
use crate::logs::read_logs;
use crate::replayed::Replayed;
use crate::version::test_marks;
use block_disk::Disk;
use image::{
    Control, ControlError, GuardRow, GuardsError, HeaderError, Layout, Slot, choose_control,
    read_guards, read_header,
};
use recover_heap::RecoverError;
use std::alloc::Global;

/// Reads what the image on the device, of which nothing has to be known, holds before its lanes' areas, whichever its
/// version is.
///
/// Refusals, in this order (docs/FORMAT.md, "Which image is refused"); the device is left as it was:
/// - `NotFormatted`: the device has fewer than 64 bytes, the name isn't there, or the header's gate is closed;
/// - `BadHeader`: a number of the header is out of its limits, a byte that has to be zero isn't, or the size isn't the
///   layout's;
/// - `TooSmall`: the device is smaller than that size;
/// - `BadHeader`: the guard or the owner of some guard row isn't an object of the image, or its mark or a byte that has to
///   be zero is another;
/// - `NoControl`: the gates of both slots are closed;
/// - `BadControl`: both are open with the same sequence, or the slot that counts doesn't hold the control of an image of
///   this layout, or one of version 1 though some field is transient.
///
/// `NoMemory` comes where the guard rows find no room, and `Fault` where a read fails.
pub fn read_front<D: Disk>(alloc: Global, disk: &mut D) -> Result<Front, RecoverError>
    ensures exact { ReadsFront (D.device disk.old).now.bytes result }
    ensures same { SameMoments (D.device disk.old) (D.device disk.new) }
    ensures cause { HasCauseSince (D.device disk.old) (D.device disk.new) Fault result }
{
    let layout = find_layout(disk)?;
    let guards = find_guards(alloc, disk, &layout)?;
    let (slot, control) = find_control(disk, &layout)?;
    test_marks(&control, &guards)?;
    Ok(Front {
        layout,
        guards,
        slot,
        control,
    })
}

/// Reads the live records of the image with this front, and replays them.
///
/// Refusals, in this order; the device is left as it was:
/// - `BadRecord`: a live place whose bytes are no record of the image; the least lane, then the least place;
/// - `IllegalLog`: see [`check_logs`].
///
/// `NoMemory` comes where a lane's records or the replay find no room, and `Fault` where a read fails.
pub fn read_live<D: Disk>(
    alloc: Global,
    disk: &mut D,
    front: Front,
) -> Result<Replayed, RecoverError>
    requires { IsFrontOf (D.device disk.old).now.bytes front }
    ensures exact { ReadsLive (D.device disk.old).now.bytes front result }
    ensures control { IfOk result (λ r. r.image.control ≡ front.control) }
    ensures replays { IfOk result
        (λ r. AreReplayOf r.image.guards.items r.image.records.items r.steps.items) }
    ensures low { IfOk result (λ r. All IsLow r.steps.items) }
    ensures same { SameMoments (D.device disk.old) (D.device disk.new) }
    ensures cause { HasCauseSince (D.device disk.old) (D.device disk.new) Fault result }
{
    let Front {
        layout,
        guards,
        slot,
        control,
    } = front;
    let records = read_logs(alloc, disk, &layout, &control.rows)?;
    let steps = check_logs(alloc, &layout, &guards, &control.rows, &records)?;
    let image = LoggedImage {
        layout,
        slot,
        control,
        guards,
        records,
    };
    Ok(Replayed { image, steps })
}

fn find_layout<D: Disk>(disk: &mut D) -> Result<Layout, RecoverError>
    ensures exact { ReadsLayout (D.device disk.old).now.bytes result }
    ensures same { SameMoments (D.device disk.old) (D.device disk.new) }
    ensures cause { HasCauseSince (D.device disk.old) (D.device disk.new) Fault result }
{
    match read_header(disk) {
        Ok(layout) => Ok(layout),
        Err(HeaderError::Fault) => Err(RecoverError::Fault),
        Err(HeaderError::NotFormatted) => Err(RecoverError::NotFormatted),
        Err(HeaderError::BadHeader) => Err(RecoverError::BadHeader),
        Err(HeaderError::TooSmall) => Err(RecoverError::TooSmall),
    }
}

fn find_guards<D: Disk>(
    alloc: Global,
    disk: &mut D,
    layout: &Layout,
) -> Result<Vec<GuardRow>, RecoverError>
    requires limits { IsLayout layout.now }
    requires fits { size_of layout.now ≤ length (D.device disk.old).now.bytes }
    ensures exact { ReadsRows layout.now (D.device disk.old).now.bytes result }
    ensures same { SameMoments (D.device disk.old) (D.device disk.new) }
    ensures cause { HasCauseSince (D.device disk.old) (D.device disk.new) Fault result }
{
    match read_guards(alloc, disk, layout) {
        Ok(guards) => Ok(guards),
        Err(GuardsError::Fault) => Err(RecoverError::Fault),
        Err(GuardsError::BadHeader) => Err(RecoverError::BadHeader),
        Err(GuardsError::NoMemory) => Err(RecoverError::NoMemory),
    }
}

fn find_control<D: Disk>(disk: &mut D, layout: &Layout) -> Result<(Slot, Control), RecoverError>
    requires limits { IsLayout layout.now }
    requires fits { size_of layout.now ≤ length (D.device disk.old).now.bytes }
    ensures exact { ReadsControl layout.now (D.device disk.old).now.bytes result }
    ensures same { SameMoments (D.device disk.old) (D.device disk.new) }
    ensures cause { HasCauseSince (D.device disk.old) (D.device disk.new) Fault result }
{
    match choose_control(disk, layout) {
        Ok(found) => Ok(found),
        Err(ControlError::Fault) => Err(RecoverError::Fault),
        Err(ControlError::NoControl) => Err(RecoverError::NoControl),
        Err(ControlError::BadControl) => Err(RecoverError::BadControl),
    }
}
