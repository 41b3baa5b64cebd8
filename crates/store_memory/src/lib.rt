//! What a store remembers, in memory alone.
//!
//! [`Applied`] takes the records of each lane. It knows who holds each monitor, each field's value, the open sections, the records that are
//! not yet logged, and the fields that have to be written home. [`LoggedSections`] takes the logged ones: which sections may be acknowledged,
//! and where they end. Nothing here knows a device.
#![tactic(auto)]

mod states;

// What a record needs, and what it changes.
mod check;
mod note;

// What is logged, and what has to go home.
mod applied;
mod bits;
mod dirty;
mod fresh;
mod logged;

// Where the sections of what is logged end.
mod ends;
mod sections;
mod stable_sections;

pub use applied::Applied;
pub use sections::LoggedSections;
pub use stable_sections::StableSections;
pub use states::FieldState;
