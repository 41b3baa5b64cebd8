//! Showing what an image holds.
ghost use Rattle.inspect.specs.StudyText.{study_text};
ghost use Rattle.image_file.specs.Beside.{LeavesBesideIt};
ghost use Rattle.image_file.specs.Showing.{ShowsBy};

use crate::error::ImageFault;
use crate::images::{Images, look_at};
use crate::refusal::refusal_of_inspection;
use block_disk::Disk;
use inspect::inspect;
use std::alloc::Global;
use std::io::Write;

/// Writes what the image at a path holds, of which nothing has to be known, line by line: what the program's word `show` does. The image
/// is only looked at.
///
/// Refusals, in this order:
/// - `InUse`: another process may write the image. `Fault` says that it isn't there or can't be read, `NoMemory` that there was no memory,
///   and `NotFormatted` that it doesn't begin as an image. Nothing is written;
/// - those of [`study`](recover::study). Nothing is written;
/// - `Fault`: the writer failed. A beginning of the lines is written.
pub fn show_at<D: Disk + Drop, P: Images<Medium = D>, W: Write>(
    images: &mut P,
    alloc: Global,
    path: &str,
    writer: &mut W,
) -> Result<(), ImageFault>
    // What is shown is the text of a study of the image at the path, and the image stays. It is refused for what is
    // wrong with that image.
    ensures ends { ShowsBy study_text result (P.holds images.old path.now) (P.holds images.new path.now)
        (W.contents writer.old) (W.contents writer.new) }
    // Nothing beside the path is lost.
    ensures beside { LeavesBesideIt path.now P.holds P.lies images.old images.new }
{
    let mut disk = match look_at(images, alloc, path) {
        Ok(disk) => disk,
        Err(fault) => return Err(ImageFault::from(fault)),
    };
    let shown = inspect(alloc, &mut disk, writer);
    drop(disk);
    match shown {
        Ok(()) => Ok(()),
        Err(error) => Err(ImageFault::Image(refusal_of_inspection(error))),
    }
}
