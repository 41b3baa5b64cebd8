//! A device of atomic sectors: a crash leaves each sector as it was at the last sync, or as one of the writes since then left it. NVMe devices and Ceph's
//! RBD promise this of 512 bytes; a [`Disk`](block_disk::Disk) may leave any bytes in what is written.
//!
//! The promise is one about crashes alone, so each `Disk` can be looked at so. [`UntornDisk`] is what a layer over it needs besides: a write that fails
//! leaves what reads as it was.
#![tactic(auto)]

mod buffered;
mod deferred;
mod memory;
mod untorn;
mod volatile;

pub use untorn::UntornDisk;
