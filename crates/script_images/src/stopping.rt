//! What a machine leaves where a run ends.
ghost use Rattle.std.specs.Prelude.{◌≡◌, IfOk, None, OnOk, Some};
ghost use Rattle.script_machine.specs.Images.{image_in};
ghost use Rattle.script_images.specs.Playing.{HasStopped, shown_by};

use block_disk::Fill;
use script_lines::Command;
use script_machine::Machine;
use std::alloc::{AllocError, Global};

/// What the machine's device reads: as a crash has left it, or, where the machine runs, as a stop leaves it, with each write done.
///
/// An error is want of memory.
pub(crate) fn image_left(alloc: Global, machine: &mut Machine) -> Result<Vec<u8>, AllocError>
    ensures { IfOk result (λ image. shown_by machine.old ≡ Some image.items) }
{
    if machine.image().is_none() {
        return image_behind_stop(alloc, machine);
    }
    image_there(alloc, machine)
}

// What is left at a stop of a machine that isn't down.
fn image_behind_stop(alloc: Global, machine: &mut Machine) -> Result<Vec<u8>, AllocError>
    ensures { image_in machine.old ≡ None → IfOk result (λ image. shown_by machine.old ≡ Some image.items) }
{
    stop(alloc, machine)?;
    image_there(alloc, machine)
}

// What the device of a machine that is down has.
fn image_there(alloc: Global, machine: &Machine) -> Result<Vec<u8>, AllocError>
    ensures { IfOk result (λ image. image_in machine.now ≡ Some image.items) }
{
    match machine.image() {
        Some(image) => image.to_vec(alloc),
        None => Err(AllocError),
    }
}

// Stops a machine that runs.
fn stop(alloc: Global, machine: &mut Machine) -> Result<(), AllocError>
    ensures { OnOk result (HasStopped machine.old machine.new) }
{
    let kept = Command::Crash {
        fill: Fill::Kept,
        back: 0,
    };
    match machine.step(alloc, &kept) {
        Ok(_) => Ok(()),
        Err(error) => Err(error),
    }
}
