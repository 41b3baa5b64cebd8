//! What was read of an image's home cells.
use image::{GuardRow, Layout};

/// What an image's home cells hold, and what has to be known of them.
#[derive(Drop)]
pub(crate) struct Cells {
    /// The layout of the image.
    pub(crate) layout: Layout,
    /// The guard rows, by field.
    pub(crate) guards: Vec<GuardRow>,
    /// The values that the fields have at home, by field.
    pub(crate) values: Vec<u64>,
}
