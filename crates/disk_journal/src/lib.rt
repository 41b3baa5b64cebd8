//! A disk over a device of atomic sectors, each of whose syncs is one flush, and which a crash leaves as it was at the last sync or at this one
//! (docs/FORMAT.md, "A journal in two halves").
//!
//! [`Journaled`] is that disk. It keeps the contract of [`Disk`](block_disk::Disk), and more: of a sync a crash leaves all or nothing.
#![tactic(auto)]

mod error;
mod journaled;
mod label;
mod making;
mod opening;
mod pages;
mod settling;
mod syncing;
mod touching;

pub use error::JournalError;
pub use journaled::Journaled;
pub use label::{LABEL_BYTES, has_room, label_areas};
