//! Which reader refuses an image.
use image::{ControlError, GuardsError, HeaderError};

/// Which of the readers, one after the other, refuses an image, and why.
#[derive(Clone, Copy, PartialEq, Eq)]
pub(crate) enum Unread {
    Header(HeaderError),
    Guards(GuardsError),
    Control(ControlError),
}

/// The header is bad.
pub(crate) const BAD_HEADER: Unread = Unread::Header(HeaderError::BadHeader);

/// A guard row is bad.
pub(crate) const BAD_ROW: Unread = Unread::Guards(GuardsError::BadHeader);

/// The control is bad.
pub(crate) const BAD_CONTROL: Unread = Unread::Control(ControlError::BadControl);
