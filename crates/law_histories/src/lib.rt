//! The laws of histories, of their logs and of the heaps that cuts of them keep.
//!
//! What a thread's own events say of every legal history that has them, what the order of the lanes' records
//! among one another doesn't change, and what putting back old values gives. Each function `.._law` proves one.
#![tactic(auto)]

mod laws;
mod own_laws;
mod section_laws;

pub use laws::{
    log_law, next_law, order_law, own_law, own_log_law, sent_law, state_law, trim_law, undo_law,
};
pub use own_laws::{
    awake_by_view_law, held_by_view_law, holding_law, known_law, of_lanes_law, others_keep_law,
    own_sections_law,
};
pub use section_laws::{all_kept_law, earliest_law, holder_law, limits_law};
