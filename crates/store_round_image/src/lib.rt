//! A round of two syncs, as its device sees it.
//!
//! [`turn_round`] writes cells that lag behind, new records of the threads' and of the helper's lane, and the body of the next
//! control, makes all that durable, and turns one gate. At every moment a crash leaves an image that shows the old heap or the
//! new one.
#![tactic(auto)]

mod cells;
mod turning;

pub use cells::HomeValue;
pub use turning::turn_round;
