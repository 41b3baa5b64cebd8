//! A block device whose calls somebody else makes: the host of a library, which alone can reach its file.
//!
//! [`DeferredDisk`] is a disk in memory. At each sync it hands over the calls since the last one, that sync included, through a ring to its
//! [`HostCalls`]. The host takes them from there one by one, and makes them, in order, on a device of its own. Writes that follow one another
//! are told as one.
//!
//! The host's device is then what the disk was at some earlier moment. So whatever holds at each moment of the disk holds of the host's device
//! too.
#![tactic(auto)]

mod call;
mod copying;
mod disk;
mod handing;
mod host;
mod laws;
mod meeting;

pub use call::{DeviceCall, MOST_BYTES};
pub use disk::{DeferredDisk, SYNCS};
pub use host::HostCalls;
pub use laws::since_law;
