//! Workers on a heap, each in a thread of its own, beside the helper that makes durable what they do: a [`Work`](thread_work::Work).
//!
//! [`drive_with`] lets them work on a disk in memory, [`drive_new`] and [`drive_on`] on any device, and [`drive_heap`] on a heap that
//! was recovered. What each answers is what [`recover`](recover::recover) gives of the device that the closing gave back. [`Meet`] is
//! called within each section.
#![tactic(auto)]

mod declaring;
mod devices;
mod driven;
mod driving;
mod error;
mod meet;
mod working;

pub use declaring::declare;
pub use devices::{drive_new, drive_on, drive_with, image_size};
pub use driven::Driven;
pub use driving::drive_heap;
pub use error::DriveError;
pub use meet::Meet;
