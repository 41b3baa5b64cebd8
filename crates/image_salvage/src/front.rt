//! What stands before the home cells of an image, but for its control.
ghost use Rattle.std.specs.Prelude.{◌≤◌, MatchResult, length};
ghost use Rattle.block_disk.specs.Device.{SameMoments};
ghost use Rattle.block_disk.specs.Since.{HasCauseSince};
ghost use Rattle.image_parts.specs.Guards.{HasGuards};
ghost use Rattle.image_parts.specs.Layout.{IsLayout, size_of};
ghost use Rattle.recover.specs.Reading.{HasFront, HasLayout, RefusesLayout, RefusesRows};
ghost use Rattle.recover_heap.specs.declared.error.RecoverError.TheVariants.{Fault};
ghost use Rattle.image_salvage.specs.Cells.{RefusesToRead};

use block_disk::Disk;
use image::{GuardRow, GuardsError, HeaderError, Layout, read_guards, read_header};
use recover::RecoverError;
use std::alloc::Global;

/// The layout of an image and its guard rows, by field.
#[derive(Drop)]
pub(crate) struct Front {
    pub(crate) layout: Layout,
    pub(crate) guards: Vec<GuardRow>,
}

/// Reads header and guard rows of the image on the device, of which nothing has to be known.
pub(crate) fn read_front<D: Disk>(alloc: Global, disk: &mut D) -> Result<Front, RecoverError>
    ensures exact { MatchResult result
        (λ f. HasFront (D.device disk.old).now.bytes f.layout f.guards.items)
        (RefusesToRead (D.device disk.old).now.bytes) }
    ensures same { SameMoments (D.device disk.old) (D.device disk.new) }
    ensures cause { HasCauseSince (D.device disk.old) (D.device disk.new) Fault result }
{
    let layout = find_layout(disk)?;
    let guards = find_guards(alloc, disk, &layout)?;
    Ok(Front { layout, guards })
}

fn find_layout<D: Disk>(disk: &mut D) -> Result<Layout, RecoverError>
    ensures exact { MatchResult result (HasLayout (D.device disk.old).now.bytes)
        (RefusesLayout (D.device disk.old).now.bytes) }
    ensures same { SameMoments (D.device disk.old) (D.device disk.new) }
    ensures cause { HasCauseSince (D.device disk.old) (D.device disk.new) Fault result }
{
    match read_header(disk) {
        Ok(layout) => Ok(layout),
        Err(HeaderError::Fault) => Err(RecoverError::Fault),
        Err(HeaderError::NotFormatted) => Err(RecoverError::NotFormatted),
        Err(HeaderError::BadHeader) => Err(RecoverError::BadHeader),
        Err(HeaderError::TooSmall) => Err(RecoverError::TooSmall),
    }
}

fn find_guards<D: Disk>(
    alloc: Global,
    disk: &mut D,
    layout: &Layout,
) -> Result<Vec<GuardRow>, RecoverError>
    requires limits { IsLayout layout.now }
    requires fits { size_of layout.now ≤ length (D.device disk.old).now.bytes }
    ensures exact { MatchResult result
        (λ rows. HasGuards layout.now (D.device disk.old).now.bytes rows.items)
        (RefusesRows layout.now (D.device disk.old).now.bytes) }
    ensures same { SameMoments (D.device disk.old) (D.device disk.new) }
    ensures cause { HasCauseSince (D.device disk.old) (D.device disk.new) Fault result }
{
    match read_guards(alloc, disk, layout) {
        Ok(guards) => Ok(guards),
        Err(GuardsError::Fault) => Err(RecoverError::Fault),
        Err(GuardsError::BadHeader) => Err(RecoverError::BadHeader),
        Err(GuardsError::NoMemory) => Err(RecoverError::NoMemory),
    }
}
