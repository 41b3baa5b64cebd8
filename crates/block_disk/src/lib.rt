//! A block device: what a read gives, and what a crash may leave.
//!
//! [`Disk`] is the device that every layer above is proved over. Its contract gives the images that a crash may leave now, and those that a
//! crash at some earlier moment might have left. [`MemDisk`] is a disk in memory, which shows each crash of its life. The rest are calls of any
//! disk that lie within it, and what a disk is made of.
#![tactic(auto)]

mod access;
mod call;
mod crash;
mod disk;
mod error;
mod laws;
mod meets;
mod memory;
mod place;
mod short;
mod trace;

pub use access::{make_durable, read_within, write_through, write_within};
pub use crash::Fill;
pub use disk::Disk;
pub use error::{DiskError, Fault, fail};
pub use laws::{image_but_law, image_law, sync_law};
pub use meets::Meets;
pub use memory::MemDisk;
pub use place::{copy_out, lies_within, overwrite, put};
pub use trace::Trace;
