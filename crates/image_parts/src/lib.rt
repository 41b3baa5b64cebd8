//! The parts of the image that a heap's device holds: header, control, guard rows, home cells and the areas of the lanes' logs.
//!
//! [`Layout`] says where each part lies. [`write_header`] makes an image. [`read_header`], [`read_guards`] and [`choose_control`] read one,
//! whatever its bytes, and refuse it by the first thing that is wrong. What logs hold is no matter of this crate. An image keeps no names:
//! [`declare`] makes the schema of its guard rows, whose objects and fields are numbered. `image` commits controls, and hands all of this on.
#![tactic(auto)]

mod bytes;
mod cells;
mod choice;
mod control;
mod error;
mod format;
mod guard_row;
mod guard_rows;
mod head;
mod header;
mod lane_row;
mod laws;
mod layout;
mod numbered_rows;
mod recovered;
mod slot;

pub use cells::{get_cell, put_cell};
pub use choice::{Head, choose_control, read_head};
pub use control::{BODY_BYTES, Control, OLD_VERSION, ROWS, VERSION, encode_control};
pub use error::{ControlError, GuardsError, HeaderError, ImageError};
pub use format::write_header;
pub use guard_row::{GuardRow, decode_guard};
pub use guard_rows::read_guards;
pub use head::{areas_at, fields_in, has_control, is_formatted, is_named, layout_in};
pub use header::{CLOSED, HEADER_BYTES, OPEN, read_header};
pub use lane_row::LaneRow;
pub use laws::{empty_rows_law, fresh_law, place_law, reading_law, spelling_law, survival_law};
pub use layout::{HEAD_BYTES, Layout};
pub use numbered_rows::declare;
pub use recovered::{Recovered, RecoveredParts};
pub use slot::Slot;
