//! Why there is no image, or no text of one.
ghost use Rattle.std.specs.Prelude.{◌≡◌};
ghost use Rattle.image_file.specs.Formatting.{told_of_disk, told_of_file, told_of_places, told_of_schema};
ghost use Rattle.image_file.specs.Naming.{told_of_names};
ghost use Rattle.image_file.specs.Showing.{told_of_attaching};

use disk_file::FileError;
use disk_sectors::PlacesError;
use recover::RecoverError;
use script_declarations::{SchemaFault, SchemaFaultKind};
use thiserror::Error;

/// Why an image file isn't had. Each leaves every byte that it had; but a `Fault` of an opening to write may come after a journal's newest
/// batch was written to its place, which leaves the image.
#[derive(Clone, Copy, Debug, PartialEq, Eq, Error)]
pub enum FileFault {
    /// A call of the file system has failed.
    #[error("fault")]
    Fault,
    /// There was no memory.
    #[error("no memory")]
    NoMemory,
    /// Another process has the image, or has just put a new one there.
    #[error("image in use")]
    InUse,
    /// The file has bytes, and doesn't begin as an image: with its name and an open gate.
    #[error("not formatted")]
    NotImage,
}

impl From<FileError> for FileFault {
    ghost from_gives = { λ error fault. fault ≡ told_of_disk error };

    fn from(error: FileError) -> FileFault {
        match error {
            FileError::Fault => FileFault::Fault,
            FileError::NoMemory => FileFault::NoMemory,
        }
    }
}

impl From<PlacesError> for FileFault {
    ghost from_gives = { λ error fault. fault ≡ told_of_places error };

    fn from(error: PlacesError) -> FileFault {
        match error {
            PlacesError::Fault => FileFault::Fault,
            PlacesError::NoMemory => FileFault::NoMemory,
            // All that its label counts was there when this was read: another process has shortened the file.
            PlacesError::TooSmall => FileFault::NotImage,
        }
    }
}

/// Why no image was made. The first two are found before the image file is touched.
#[derive(Clone, Copy, Debug, PartialEq, Eq, Error)]
pub enum FormatError {
    /// The schema file is refused, at this line.
    #[error("{0}")]
    Schema(SchemaFault),
    /// There may not be so many lanes, or not so many records in each.
    #[error("bad header")]
    BadHeader,
    /// A call of the file system failed, or the writer.
    #[error("fault")]
    Fault,
    /// There was no memory.
    #[error("no memory")]
    NoMemory,
    /// Another process has the image that is there.
    #[error("image in use")]
    InUse,
    /// The file that is there has other bytes than an image's.
    #[error("not an image")]
    NotImage,
}

impl From<SchemaFault> for FormatError {
    ghost from_gives = { λ fault error. error ≡ told_of_schema fault };

    fn from(fault: SchemaFault) -> FormatError {
        match fault.why {
            SchemaFaultKind::Read => FormatError::Fault,
            SchemaFaultKind::Memory => FormatError::NoMemory,
            _ => FormatError::Schema(fault),
        }
    }
}

impl From<FileFault> for FormatError {
    ghost from_gives = { λ fault error. error ≡ told_of_file fault };

    fn from(fault: FileFault) -> FormatError {
        match fault {
            FileFault::Fault => FormatError::Fault,
            FileFault::NoMemory => FormatError::NoMemory,
            FileFault::InUse => FormatError::InUse,
            FileFault::NotImage => FormatError::NotImage,
        }
    }
}

/// Why an image file isn't shown, drawn, recovered or upgraded.
#[derive(Clone, Copy, Debug, PartialEq, Eq, Error)]
pub enum ImageFault {
    /// The image is refused; or it can't be read, be written, or its text be written, by `Fault`.
    #[error("{0}")]
    Image(RecoverError),
    /// Another process has the image.
    #[error("image in use")]
    InUse,
}

impl From<FileFault> for ImageFault {
    ghost from_gives = { λ fault error. error ≡ told_of_attaching fault };

    fn from(fault: FileFault) -> ImageFault {
        match fault {
            FileFault::Fault => ImageFault::Image(RecoverError::Fault),
            FileFault::NoMemory => ImageFault::Image(RecoverError::NoMemory),
            FileFault::InUse => ImageFault::InUse,
            FileFault::NotImage => ImageFault::Image(RecoverError::NotFormatted),
        }
    }
}

/// Why an image file isn't drawn or dumped by the names of a schema file.
#[derive(Clone, Copy, Debug, PartialEq, Eq, Error)]
pub enum NamedFault {
    /// The image isn't had, or is refused, or the writer failed.
    #[error("{0}")]
    Image(ImageFault),
    /// The schema file is refused, at this line.
    #[error("{0}")]
    Schema(SchemaFault),
    /// It isn't the schema of the image.
    #[error("other schema")]
    OtherSchema,
}

impl From<SchemaFault> for NamedFault {
    ghost from_gives = { λ fault error. error ≡ told_of_names fault };

    fn from(fault: SchemaFault) -> NamedFault {
        match fault.why {
            SchemaFaultKind::Read => NamedFault::Image(ImageFault::Image(RecoverError::Fault)),
            SchemaFaultKind::Memory => NamedFault::Image(ImageFault::Image(RecoverError::NoMemory)),
            _ => NamedFault::Schema(fault),
        }
    }
}
