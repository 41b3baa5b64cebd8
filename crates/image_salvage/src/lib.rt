//! What is left of a damaged image, as a schema file: the values of its home cells, and the heap by one slot of its control.
//!
//! [`dump_cells`] reads header, guard rows and home cells, and neither the control nor any log. [`dump_slot`] finds the heap that recovery
//! gives by one slot, whatever the other one holds. [`dump_cells_at`] and [`dump_slot_at`] do so for the image at a path, which is only
//! looked at. What is written needn't be the values of one moment, and says so in its first line, a comment that readers of schema files
//! skip ([`note_law`]).
#![tactic(auto)]

mod at_paths;
mod cells;
mod dumping_cells;
mod dumping_slot;
mod front;
mod home_cells;
mod laws;
mod naming;
mod notes;
mod writing;

pub use at_paths::{dump_cells_at, dump_slot_at};
pub use dumping_cells::dump_cells;
pub use dumping_slot::dump_slot;
pub use laws::note_law;
