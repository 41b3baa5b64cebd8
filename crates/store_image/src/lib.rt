//! The image of a store: the steps by which the records applied to a store reach its device.
//!
//! [`format`] makes an image. [`log_records`] makes new records durable, [`write_home`] brings a logged value to its home cell, [`settle`]
//! acknowledges the stable cut, and [`trim`] frees the places of what is acknowledged. Each says
//! which past the device agrees with afterwards, and what every image that a crash may leave stands for at every moment until then.
//! [`standing_law`] says what that is worth.
#![tactic(auto)]

mod formatting;

// The control that counts, and how it is exchanged.
mod commit;
mod committed;
mod sync;

// The steps.
mod home;
mod logging;
mod records;
mod settling;
mod trimming;

// What an image of a store is worth.
mod laws;

pub use commit::commit_written;
pub use committed::Committed;
pub use formatting::format;
pub use home::{Home, write_home};
pub use laws::standing_law;
pub use logging::log_records;
pub use records::append_lanes;
pub use settling::settle;
pub use trimming::{is_trimmed, trim};
