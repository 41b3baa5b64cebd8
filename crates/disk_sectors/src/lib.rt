//! A device of sectors, which may lose a whole sector where a [`Disk`](block_disk::Disk) loses bytes.
//!
//! [`Sectors`] is that device: a crash may leave any bytes in each sector that was being written, or a sector that can't be
//! read. [`TwoPlaces`] is a disk over any such device, which keeps the contract of `Disk` through that. [`SectorsOf`] are the sectors of
//! a disk, [`MemSectors`] sectors in memory; a [`Label`] tells a device in two places by its first bytes.
#![tactic(auto)]

mod access;
mod area;
mod error;
mod gate;
mod label;
mod marks;
mod memory;
mod opening;
mod over_disk;
mod places;
mod sectors;
mod size;
mod two_places;

pub use error::{PlacesError, SectorError};
pub use label::{LABEL_BYTES, Label};
pub use memory::MemSectors;
pub use over_disk::SectorsOf;
pub use sectors::Sectors;
pub use size::SectorSize;
pub use two_places::TwoPlaces;
