//! Inspecting an image: its study, line by line or as a graph.
ghost use Rattle.inspect.specs.Inspection.{ShowsImage, ShowsStudy};
ghost use Rattle.recover.specs.Fits.{FitsNumbers};
ghost use Rattle.inspect.specs.StudyText.{study_text};
ghost use Rattle.inspect.specs.WholeGraph.{graph_text};
ghost use Rattle.image_parts.specs.Layout.{IsLayout};

use crate::error::{InspectError, ShowError};
use crate::graph::write_graph;
use crate::study_lines::write_study;
use block_disk::Disk;
use recover::{RecoverError, Study, study, study_law};
use std::alloc::Global;
use std::io::Write;

/// Writes what the image on the device holds, of which nothing has to be known: the lines of [`write_study`]. The device is
/// left as it was.
///
/// `Study` hands on the refusal of the image, or want of memory: nothing is written then. After `Write` a beginning of the
/// lines is written.
pub fn inspect<D: Disk, W: Write>(
    alloc: Global,
    disk: &mut D,
    writer: &mut W,
) -> Result<(), InspectError>
    // What is written of an image are the lines of its study. Where the image is refused nothing is written.
    ensures { ShowsImage study_text D.device disk.old disk.new W.contents writer.old writer.new result }
{
    match study(alloc, disk) {
        Ok(study) => {
            // The study of an image is within the limits that its lines need.
            study_law();
            show(alloc, &study, writer)
        }
        Err(error) => Err(InspectError::Study(error)),
    }
}

/// Writes live sections of the image on the device, of which nothing has to be known, and their dependences: the graph of
/// [`write_graph`], by numbers, with the last fifty sections of each lane. The device is left as it was.
///
/// `Study` hands on the refusal of the image, or want of memory: nothing is written then. After `Write` a beginning of the
/// graph is written.
pub fn draw<D: Disk, W: Write>(
    alloc: Global,
    disk: &mut D,
    writer: &mut W,
) -> Result<(), InspectError>
    // What is drawn of an image is its graph. Where the image is refused nothing is written.
    ensures { ShowsImage graph_text D.device disk.old disk.new W.contents writer.old writer.new result }
{
    match study(alloc, disk) {
        Ok(study) => {
            // The study of an image is within the limits that its graph needs.
            study_law();
            show_graph(alloc, &study, writer)
        }
        Err(why) => Err(InspectError::Study(why)),
    }
}

// Writes the graph of an image's study.
fn show_graph<W: Write>(alloc: Global, study: &Study, writer: &mut W) -> Result<(), InspectError>
    requires numbers { FitsNumbers study.now }
    ensures { ShowsStudy W.contents writer.old writer.new (graph_text study.now) result }
{
    match write_graph(alloc, study, None, 50, writer) {
        Ok(()) => Ok(()),
        Err(ShowError::NoMemory) => Err(InspectError::Study(RecoverError::NoMemory)),
        Err(ShowError::Write) => Err(InspectError::Write),
    }
}

// Writes the study of an image.
fn show<W: Write>(alloc: Global, study: &Study, writer: &mut W) -> Result<(), InspectError>
    requires limits { IsLayout study.now.layout }
    requires numbers { FitsNumbers study.now }
    ensures { ShowsStudy W.contents writer.old writer.new (study_text study.now) result }
{
    match write_study(alloc, study, writer) {
        Ok(()) => Ok(()),
        Err(ShowError::NoMemory) => Err(InspectError::Study(RecoverError::NoMemory)),
        Err(ShowError::Write) => Err(InspectError::Write),
    }
}
