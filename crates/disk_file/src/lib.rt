//! Disks for long runs, over a file and in memory.
//!
//! Each takes memory for its bytes and for the ranges written since the last sync, however long it runs. [`BufferedDisk`] keeps its bytes in
//! memory and brings them to a file at each sync. [`VolatileDisk`] has no file.
//!
//! A [`BackingFile`] is what the first needs of a file, with a [`Claim`] for one of its opens. [`read_there`] and [`write_there`] serve
//! whoever makes one of what reads, writes and seeks.
#![tactic(auto)]

mod backing;
mod buffered;
mod error;
mod span;
mod volatile;
mod whole;

pub use backing::{BackingFile, Claim, read_there, write_there};
pub use buffered::BufferedDisk;
pub use error::FileError;
pub use volatile::VolatileDisk;
pub use whole::{fill, read_whole};
