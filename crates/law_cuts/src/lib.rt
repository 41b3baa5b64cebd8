//! The laws of sections and of the cuts that keep some of them.
//!
//! Which of a list's sections may be kept together, that there is one stable cut, and what a trimmed list tells of it.
//! `plain` finds the stable cut, and the heap that a cut keeps, by plain searches, which tests compare with faster ones.
#![tactic(auto)]

mod laws;
mod numbering;
pub mod plain;
mod step;

pub use laws::{part_trim_law, stable_law, stay_law, union_law, unlogged_law};
