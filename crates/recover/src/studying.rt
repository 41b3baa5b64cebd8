//! Studying an image: what it holds, what it stands for, and what of it recovery drops.
ghost use Rattle.std.specs.Prelude.{◌≡◌, ℕ, All, IfErr, IfOk, List};
ghost use Rattle.heap_model.specs.Cuts.{counts_of};
ghost use Rattle.block_disk.specs.Device.{SameMoments};
ghost use Rattle.block_disk.specs.Since.{HasCauseSince};
ghost use Rattle.undo_log.specs.StandsFor.{StandsFor, row_of};
ghost use Rattle.recover_heap.specs.Heap.{RefusesHeap};
ghost use Rattle.recover.specs.Reading.{Holds, IsFrontOf};
ghost use Rattle.recover.specs.Study.{AreUndoneIn, AreUndoneOf, FindsRest, IsReplayIn, ReportsOn, Studies};
ghost use Rattle.recover_logs.specs.Tables.{IsLow};
ghost use Rattle.recover_heap.specs.declared.error.RecoverError.TheVariants.{Fault};

use crate::dropping::dropped_sections;
use crate::findings::Findings;
use crate::front::Front;
use crate::logged_image::LoggedImage;
use crate::reading::{read_front, read_live};
use crate::replayed::Replayed;
use crate::report::Report;
use crate::studied::Study;
use block_disk::Disk;
use heap_model::{Cut, FieldId};
use image::LaneRow;
use recover_heap::{OldHeap, RecoverError, old_heap};
use recover_logs::Step;
use std::alloc::Global;

/// Studies the image on the device, of which nothing has to be known: what it holds, the heap that it stands for, and
/// what recovery keeps and drops of it. It may be of version 2 or of version 1, from before there were transient fields, as
/// the study's control tells; what is said of recovery is then done by [`upgrade`](crate::upgrade).
///
/// Refusals, in this order (docs/FORMAT.md, "Which image is refused"); the device is left as it was:
/// - `NotFormatted`: the device has fewer than 64 bytes, the name isn't there, or the header's gate is closed;
/// - `BadHeader`: a number of the header is out of its limits, a byte that has to be zero isn't, or the size isn't the
///   layout's;
/// - `TooSmall`: the device is smaller than that size;
/// - `BadHeader`: the guard or the owner of some guard row isn't an object of the image, or its mark or a byte that has to
///   be zero is another;
/// - `NoControl`: the gates of both slots are closed;
/// - `BadControl`: both are open with the same sequence, or the slot that counts doesn't hold the control of an image of
///   this layout, or one of version 1 though some field is transient;
/// - `BadRecord`: a live place whose bytes are no record of the image; the least lane, then the least place;
/// - `IllegalLog`: no threads can have left the live records; the lane and the place of the first that shows it.
///
/// `NoMemory` comes where there is no room for what is read or found, and `Fault` where a read fails. The time is linear
/// in the fields and the live records.
pub fn study<D: Disk>(alloc: Global, disk: &mut D) -> Result<Study, RecoverError>
    // Any bytes are studied as an image, or refused by the first thing that is wrong with them, with the lane and the
    // place. A study has the image's layout and heap, what is kept and what is dropped, and each reason.
    ensures exact { Studies (D.device disk.old).now.bytes result }
    // A study changes nothing of the device.
    ensures same { SameMoments (D.device disk.old) (D.device disk.new) }
    // A study is refused by a fault only where the device has failed.
    ensures cause { HasCauseSince (D.device disk.old) (D.device disk.new) Fault result }
{
    let front = read_front(alloc, disk)?;
    let findings = find_out(alloc, disk, front)?;
    Ok(findings.study)
}

/// Finds out the rest about the image with this front.
pub fn find_out<D: Disk>(
    alloc: Global,
    disk: &mut D,
    front: Front,
) -> Result<Findings, RecoverError>
    requires { IsFrontOf (D.device disk.old).now.bytes front }
    ensures exact { FindsRest (D.device disk.old).now.bytes front result }
    ensures undone { IfOk result (λ found. AreUndoneOf found.study found.undone.items) }
    ensures control { IfOk result (λ found. found.study.control ≡ front.control) }
    ensures same { SameMoments (D.device disk.old) (D.device disk.new) }
    ensures cause { HasCauseSince (D.device disk.old) (D.device disk.new) Fault result }
{
    let Replayed { image, steps } = read_live(alloc, disk, front)?;
    let old = find_heap(alloc, disk, &image, &steps)?;
    let report = report_on(alloc, &image, &steps, &old.undone)?;
    let study = Study {
        layout: image.layout,
        slot: image.slot,
        control: image.control,
        guards: image.guards,
        records: image.records,
        heap: old.heap,
        report,
    };
    Ok(Findings {
        study,
        undone: old.undone,
    })
}

// The heap that the image stands for, and the fields that take an old value back.
fn find_heap<D: Disk>(
    alloc: Global,
    disk: &mut D,
    image: &LoggedImage,
    steps: &[Step],
) -> Result<OldHeap, RecoverError>
    requires holds { Holds (D.device disk.old).now.bytes image.now }
    requires replays { IsReplayIn image.now steps.now }
    requires low { All IsLow steps.now }
    ensures stands { IfOk result
        (λ old. StandsFor image.now.layout (D.device disk.old).now.bytes old.heap.items) }
    ensures undone { IfOk result (λ old. AreUndoneIn image.now old.undone.items) }
    ensures no_other { IfErr result RefusesHeap }
    ensures same { SameMoments (D.device disk.old) (D.device disk.new) }
    ensures cause { HasCauseSince (D.device disk.old) (D.device disk.new) Fault result }
{
    old_heap(
        alloc,
        disk,
        &image.layout,
        &image.guards,
        &image.control.rows,
        &image.records,
        steps,
    )
}

// What recovery keeps and drops of the image, and in how many fields it puts an old value back.
fn report_on(
    alloc: Global,
    image: &LoggedImage,
    steps: &[Step],
    undone: &[FieldId],
) -> Result<Report, RecoverError>
    requires holds { (bytes : List ℕ) × Holds bytes image.now }
    requires replays { IsReplayIn image.now steps.now }
    requires undone { AreUndoneIn image.now undone.now }
    ensures exact { ReportsOn image.now result }
{
    let dropped = dropped_sections(
        alloc,
        &image.layout,
        &image.guards,
        &image.control.rows,
        &image.records,
        steps,
    )?;
    Ok(Report {
        kept: kept_sections(&image.control.rows),
        dropped,
        undone: undone.len() as u32,
    })
}

// The acknowledged sections of each lane.
fn kept_sections(rows: &[LaneRow; 32]) -> Cut
    ensures { (lane : ℕ) → counts_of result lane ≡ (row_of rows.now lane).kept }
{
    let mut counts = [0; 32];
    for lane in 0..32 {
        counts[lane] = rows[lane].kept;
    }
    Cut { counts }
}
