//! The machine that a script's lines are played on (docs/SCRIPTS.md): it declares, runs, and between a crash and a
//! recovery is down.
//!
//! [`Machine::step`] plays a [`Command`](script_lines::Command) and gives an [`Answer`]. Behind plain monitors stands a
//! store on a device in memory, which takes the records of what the threads do. [`Machine::down`] makes a machine that an image has to be
//! recovered on, and [`Machine::image`] gives the image that a crash has left. Nothing here knows of text.
#![tactic(auto)]

mod answer;
mod down;
mod image_study;
mod laws;
mod logged;
mod machine;
mod opening;
mod phase;
mod refusals;
mod running;
mod store_calls;

pub use answer::{Answer, Refusal, Report};
pub use image_study::ImageStudy;
pub use laws::disk_law;
pub use machine::Machine;
