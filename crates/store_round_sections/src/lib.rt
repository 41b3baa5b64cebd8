//! The helper's sections for a round's changed fields.
//!
//! Fields that change in a round get sections of the helper's: one for each of their guards. [`sort_by_guard`] brings fields of one
//! guard together, [`needed`] tells how many records the sections take, and [`push_sections`] makes them. Each section stands just
//! before the first record beyond the cut that takes its guard; that there is a number for it is a law ([`number_law`], [`first_law`]).
#![tactic(auto)]

mod laws;
mod sections;
mod sorting;
#[cfg(test)]
mod tests;

pub use laws::{first_law, number_law};
pub use sections::{needed, push_sections};
pub use sorting::sort_by_guard;
