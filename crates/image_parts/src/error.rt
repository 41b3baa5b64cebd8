//! Why an image isn't made, read or written on.
ghost use Rattle.std.specs.Prelude.{◌≡◌};
ghost use Rattle.image_parts.specs.declared.error.ControlError.TheVariants as control;
ghost use Rattle.image_parts.specs.declared.error.GuardsError.TheVariants as guards;
ghost use Rattle.image_parts.specs.declared.error.HeaderError.TheVariants as header;
ghost use Rattle.image_parts.specs.declared.error.ImageError.TheVariants as image;

use block_disk::Fault;
use thiserror::Error;

/// Why an image isn't made, or a call that writes it or reads a cell has to stop.
#[derive(Clone, Copy, Debug, PartialEq, Eq, Error)]
pub enum ImageError {
    /// A call of the device failed.
    #[error("fault")]
    Fault,
    /// A number of the header would be out of its limits.
    #[error("bad header")]
    BadHeader,
    /// The device is smaller than the image would be.
    #[error("too small")]
    TooSmall,
    /// The control's sequence is at its last value, 2^64 - 1.
    #[error("worn")]
    Worn,
    /// There was no memory.
    #[error("no memory")]
    NoMemory,
}

/// Why the header of an image isn't read.
#[derive(Clone, Copy, Debug, PartialEq, Eq, Error)]
pub enum HeaderError {
    /// The call of the device failed.
    #[error("fault")]
    Fault,
    /// There is no header, or its gate is closed.
    #[error("not formatted")]
    NotFormatted,
    /// A number of the header is out of its limits, or a byte that has to be zero isn't.
    #[error("bad header")]
    BadHeader,
    /// The device is smaller than the header says that the image is.
    #[error("too small")]
    TooSmall,
}

/// Why the guard rows of an image aren't read.
#[derive(Clone, Copy, Debug, PartialEq, Eq, Error)]
pub enum GuardsError {
    /// A call of the device failed.
    #[error("fault")]
    Fault,
    /// A number of a guard row is out of its limits, or a byte that has to be zero isn't.
    #[error("bad header")]
    BadHeader,
    /// There was no memory.
    #[error("no memory")]
    NoMemory,
}

/// Why no control of an image is chosen.
#[derive(Clone, Copy, Debug, PartialEq, Eq, Error)]
pub enum ControlError {
    /// A call of the device failed.
    #[error("fault")]
    Fault,
    /// The gates of both slots are closed.
    #[error("no control")]
    NoControl,
    /// Neither slot is chosen though a gate is open, or the chosen one has no control of this layout.
    #[error("bad control")]
    BadControl,
}

impl From<Fault> for ImageError {
    ghost from_gives = { λ _ e. e ≡ image.Fault };

    fn from(_fault: Fault) -> ImageError {
        ImageError::Fault
    }
}

impl From<Fault> for HeaderError {
    ghost from_gives = { λ _ e. e ≡ header.Fault };

    fn from(_fault: Fault) -> HeaderError {
        HeaderError::Fault
    }
}

impl From<Fault> for GuardsError {
    ghost from_gives = { λ _ e. e ≡ guards.Fault };

    fn from(_fault: Fault) -> GuardsError {
        GuardsError::Fault
    }
}

impl From<Fault> for ControlError {
    ghost from_gives = { λ _ e. e ≡ control.Fault };

    fn from(_fault: Fault) -> ControlError {
        ControlError::Fault
    }
}
