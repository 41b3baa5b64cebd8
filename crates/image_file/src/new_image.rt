//! What a new image is to be.

use disk_sector_file::ImageKind;

/// What a new image is to be.
#[derive(Clone, Copy)]
pub struct NewImage {
    /// The number of lanes, 1 to 32.
    pub lanes: u8,
    /// The records that a lane's area holds, 2,000 to 1,048,576.
    pub capacity: u32,
    /// How it is to lie in its file.
    pub kind: ImageKind,
    /// Whether an image that was there stays beside the new one.
    pub is_kept: bool,
}
