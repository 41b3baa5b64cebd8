//! Image files as disks: plain, in two places on the sectors of the file, or behind a journal (docs/FORMAT.md, "Sectors in two places", "A journal in two halves").
//!
//! [`ImageDisk`] is the disk of an image file of each [`ImageKind`]; in two places it is the disk in two places itself, over [`FileSectors`].
//! [`ImageBytes`] reads such a file from its beginning on, and [`whole_image`] as a whole; neither needs the right to write it. [`label_of`] tells with which label a
//! file begins.
#![tactic(auto)]

mod file_sectors;
mod image_bytes;
mod image_disk;
mod image_kind;
mod journals;
mod labels;

pub use file_sectors::FileSectors;
pub use image_bytes::{ImageBytes, whole_image};
pub use image_disk::ImageDisk;
pub use image_kind::ImageKind;
pub use journals::{journal_for, room_of_journal};
pub use labels::{FileLabel, has_label, label_of};
