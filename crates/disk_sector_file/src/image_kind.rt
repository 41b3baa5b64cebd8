//! How an image lies in its file.

use disk_sectors::SectorSize;

/// How an image lies in its file (docs/FORMAT.md).
#[derive(Clone, Copy, Debug, PartialEq, Eq)]
pub enum ImageKind {
    /// The file's bytes are the image's.
    Plain,
    /// In two places, on sectors of so many bytes.
    Placed(SectorSize),
    /// Behind a journal in two halves, for a device that keeps each sector of 512 bytes whole.
    Journaled,
}
