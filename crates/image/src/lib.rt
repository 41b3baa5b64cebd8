//! The commit of a control: an image of a heap passes from one control to the next.
//!
//! [`commit_control`] replaces the control: at every moment a crash leaves the old one or the new one. So does [`commit_by_turning`], with two
//! syncs, where other writes are still pending. What an image consists of, and how it is read and made, stands in `image_parts`, which this
//! crate hands on.
#![tactic(auto)]

mod commit;
mod either_gate;
mod laws;
mod one_gate;
mod pending;

pub use commit::commit_control;
pub use either_gate::commit_by_turning;
pub use image_parts::{
    Control, ControlError, GuardRow, GuardsError, HEAD_BYTES, HEADER_BYTES, HeaderError,
    ImageError, LaneRow, Layout, OLD_VERSION, Recovered, RecoveredParts, Slot, VERSION, areas_at,
    choose_control, declare, decode_guard, empty_rows_law, fields_in, fresh_law, get_cell,
    has_control, is_formatted, is_named, layout_in, place_law, put_cell, read_guards, read_header,
    reading_law, spelling_law, survival_law, write_header,
};
pub use laws::steady_law;
