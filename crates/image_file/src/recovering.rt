//! Recovering an image, or upgrading it, and telling what is kept and what is dropped.
ghost use Rattle.std.specs.Prelude.{◌≡◌, ◌≢◌, ◌⊎◌, [], IfErr, IfOk, OnErr, OnOk};
ghost use Rattle.std.specs.Io.KnownBytes.{Appends};
ghost use Rattle.block_disk.specs.Device.{HasFailed, SameMoments, synced};
ghost use Rattle.block_disk.specs.Images.{LeavesOnly};
ghost use Rattle.recover.specs.Recovery.{IsCutOff, IsOnTheWay, LeavesOnTheWay, RefusesOf};
ghost use Rattle.recover.specs.Study.{IsStudyOf};
ghost use Rattle.recover_heap.specs.declared.error.RecoverError.TheVariants.{Fault};
ghost use Rattle.recover.specs.declared.studied.Study.{Study};
ghost use Rattle.inspect.specs.ReportText.{report_text};
ghost use Rattle.image_file.specs.declared.error.ImageFault.TheVariants.{Image};
ghost use Rattle.image_file.specs.Beside.{LeavesBesideIt};
ghost use Rattle.image_file.specs.Images.{AtPath, Stays};
ghost use Rattle.image_file.specs.Recovering.{IsOnTheWayAt, IsRecoveredAt, IsToldOf, MayBlameBytes, RecoversAt};
ghost use Rattle.image_file.specs.Telling.{MayBeRefusedBy, TellsLessOfVersions};

use crate::error::ImageFault;
use crate::images::Images;
use block_disk::Disk;
use inspect::{WriteError, write_report};
use recover::{RecoverError, Report, Versions, recover_of};
use std::alloc::Global;
use std::io::Write;

/// What recovery tells of an image, as [`write_report`] takes it.
#[derive(Drop)]
pub struct Told {
    /// What was kept, and what was dropped and why.
    pub report: Report,
    /// The values of the heap, by field.
    pub heap: Vec<u64>,
    /// How many lanes the image has.
    pub lanes: u8,
}

/// Recovers the image on the device, of which nothing has to be known, if it is of one of these versions, and gives what is told of
/// it. Nothing is pending on the device then.
///
/// The refusals are those of [`recover_of`](recover::recover_of), each with the device and what it leaves there: an image that is refused
/// was synced, and no more.
pub fn recover_image<D: Disk>(
    alloc: Global,
    disk: D,
    versions: Versions,
) -> Result<(D, Told), (D, RecoverError)>
    // What a recovery reports is exactly the report of the image that was recovered, which was of a version that is
    // taken.
    ensures ok { IfOk result
        (λ r. IsToldOf versions (D.device disk) (D.device r.0)
        (report_text r.1.report r.1.heap.items r.1.lanes)) }
    ensures durable { IfOk result (λ r. (D.device r.0).now.pending ≡ []) }
    // At each moment a crash leaves an image on recovery's way.
    ensures any_moment { IfOk result
        (λ r. (s : Study) → IsStudyOf (D.device disk).now.bytes s → LeavesOnly
        (synced (D.device disk)) (D.device r.0) (IsOnTheWay s)) }
    // An image is refused for what is wrong with exactly this image.
    ensures refused { IfErr result (λ back. RefusesOf versions (D.device disk).now.bytes back.1) }
    // The device of a refused image has the bytes that it had, unless it is refused by a fault.
    ensures untouched { IfErr result
        (λ back. (back.1 ≡ Fault) ⊎ SameMoments (synced (D.device disk)) (D.device back.0)) }
    // At each moment a crash leaves an image on recovery's way.
    ensures interrupted { IfErr result
        (λ back. (s : Study) → IsStudyOf (D.device disk).now.bytes s → LeavesOnTheWay s
        (D.device disk) (D.device back.0)) }
    // After a recovery that was refused nothing was done, or a sync alone, or only images on its way were left.
    ensures cut_off { IfErr result (λ back. IsCutOff (D.device disk) (D.device back.0)) }
    // A fault is answered only where the device has failed.
    ensures cause { IfErr result
        (λ back. back.1 ≡ Fault → HasFailed (D.device disk).failures (D.device back.0).failures) }
{
    let (recovered, report) = match recover_of(alloc, disk, versions) {
        Ok(found) => found,
        Err(refusal) => return Err(refusal),
    };
    let parts = recovered.into_parts();
    let told = Told {
        report,
        heap: parts.heap,
        lanes: parts.layout.lanes,
    };
    Ok((parts.disk, told))
}

/// Recovers the image at a path, if it is of one of these versions, and writes the lines of the report: what the program's words `recover`
/// and `upgrade` do. Nobody else has the image while it may be written, and it is given back before a line is.
///
/// `InUse`: another process has the image. `Fault` says that it isn't there or can't be opened for writing, that one of its calls failed, or
/// the writer; `NoMemory` that there was no memory. The other refusals are those of [`recover_image`]: the image is as it was then. After
/// a `Fault` it may be recovered again.
pub fn recover_at<D: Disk + Drop, P: Images<Medium = D>, W: Write>(
    images: &mut P,
    alloc: Global,
    versions: Versions,
    path: &str,
    writer: &mut W,
) -> Result<(), ImageFault>
    // What is at the path afterwards is what recovery makes of the image that was there, and the report that is written
    // is on that image.
    ensures ok { OnOk result
        (RecoversAt versions (P.holds images.old path.now) (P.holds images.new path.now)
        (W.contents writer.old) (W.contents writer.new)) }
    // A refusal other than a fault leaves the image at the path.
    ensures kept { IfErr result
        (λ error. error ≢ Image Fault → AtPath Stays P.holds images.old images.new path.now) }
    // After any refusal, a fault too, what is at the path is the image that was there, or one on recovery's way from it,
    // of which recovery gives the same heap. An image that recovery refuses for its bytes keeps each of them.
    ensures way { OnErr result (AtPath IsOnTheWayAt P.holds images.old images.new path.now) }
    // A refusal other than a fault has written nothing.
    ensures silent { IfErr result
        (λ error. error ≢ Image Fault → Appends (W.contents writer.old) (W.contents writer.new) []) }
    // Where the writer fails, a beginning of the report is written.
    ensures part { OnErr result
        (TellsLessOfVersions versions (W.contents writer.old) (W.contents writer.new)) }
    // An image is refused as old only where version 1 isn't taken.
    ensures too_old { IfErr result (MayBeRefusedBy versions) }
    // An image is refused as not formatted only where it doesn't begin with an image's name and an open gate.
    ensures blames { IfErr result (λ error. MayBlameBytes error (P.holds images.old path.now)) }
    // Nothing beside the path is lost.
    ensures beside { LeavesBesideIt path.now P.holds P.lies images.old images.new }
{
    let told = match recovered_at(images, alloc, versions, path) {
        Ok(told) => told,
        Err(fault) => return Err(fault),
    };
    match write_report(&told.report, &told.heap, told.lanes, writer) {
        Ok(()) => Ok(()),
        Err(WriteError) => Err(ImageFault::Image(RecoverError::Fault)),
    }
}

// Recovers the image at this path, and gives it back.
fn recovered_at<D: Disk + Drop, P: Images<Medium = D>>(
    images: &mut P,
    alloc: Global,
    versions: Versions,
    path: &str,
) -> Result<Told, ImageFault>
    ensures ok { IfOk result (λ told. IsRecoveredAt versions (P.holds images.old path.now) (P.holds images.new path.now)
        (report_text told.report told.heap.items told.lanes)) }
    ensures kept { IfErr result
        (λ error. error ≢ Image Fault → AtPath Stays P.holds images.old images.new path.now) }
    ensures way { OnErr result (AtPath IsOnTheWayAt P.holds images.old images.new path.now) }
    ensures too_old { IfErr result (MayBeRefusedBy versions) }
    ensures blames { IfErr result (λ error. MayBlameBytes error (P.holds images.old path.now)) }
    ensures beside { LeavesBesideIt path.now P.holds P.lies images.old images.new }
{
    let disk = match images.open(alloc, path) {
        Ok(disk) => disk,
        Err(fault) => return Err(ImageFault::from(fault)),
    };
    match recover_image(alloc, disk, versions) {
        Ok((disk, told)) => {
            images.close(path, disk);
            Ok(told)
        }
        Err((disk, refusal)) => {
            images.close(path, disk);
            Err(ImageFault::Image(refusal))
        }
    }
}
