//! How refusals of the layers below are told of an image.
ghost use Rattle.std.specs.Prelude.{◌≡◌};
ghost use Rattle.image_file.specs.Naming.{told_of_naming};
ghost use Rattle.image_file.specs.Showing.{told_of_inspection};

use crate::error::{ImageFault, NamedFault};
use image_schema::DumpError;
use inspect::InspectError;
use recover::RecoverError;

/// The image could not be inspected, or the writer failed.
pub(crate) fn refusal_of_inspection(error: InspectError) -> RecoverError
    ensures { result ≡ told_of_inspection error }
{
    match error {
        InspectError::Study(error) => error,
        InspectError::Write => RecoverError::Fault,
    }
}

/// The image isn't told by the names that were given, or the writer failed.
pub(crate) fn fault_of_naming(error: DumpError) -> NamedFault
    ensures { result ≡ told_of_naming error }
{
    match error {
        DumpError::Study(error) => NamedFault::Image(ImageFault::Image(error)),
        DumpError::OtherSchema => NamedFault::OtherSchema,
        DumpError::Write => NamedFault::Image(ImageFault::Image(RecoverError::Fault)),
    }
}
