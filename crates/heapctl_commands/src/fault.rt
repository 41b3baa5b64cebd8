//! Why the program doesn't do what its words ask for.
use image_file::{FileFault, FormatError, ImageFault, NamedFault};
use script_images::{SetFault, StrictFault, ValueFault};
use script_lines::ScriptError;
use thiserror::Error;
use thread_drive::DriveError;

/// Why the program doesn't do what its words ask for, by the word.
#[derive(Clone, Copy, Debug, PartialEq, Eq, Error)]
pub enum WorkFault {
    /// The script stopped. An image file is as it was.
    #[error("{0}")]
    Script(ScriptError),
    /// A strict script stopped. An image file is as it was.
    #[error("{0}")]
    Strict(StrictFault),
    /// The values of fields of an image file were not told.
    #[error("{0}")]
    Values(ValueFault),
    /// Fields of an image file were not set, or what that prints was not written.
    #[error("{0}")]
    Set(SetFault),
    /// No image file was made.
    #[error("{0}")]
    Format(FormatError),
    /// An image file was not shown, recovered or upgraded. That one is refused is no fault of the words.
    #[error("{0}")]
    Image(ImageFault),
    /// An image file was not drawn or dumped, and no script played over it, by the names of a schema file.
    #[error("{0}")]
    Named(NamedFault),
    /// Workers haven't worked to their end. An image file may be recovered, and gone on with.
    #[error("{0}")]
    Drive(DriveError),
    /// The image file for workers can't be had, or not be read.
    #[error("{0}")]
    File(FileFault),
    /// Workers have worked, or a script was played over an image file, and the writer failed. A beginning of the text is written, and not
    /// all.
    #[error("fault")]
    Write,
}
