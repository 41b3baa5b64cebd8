//! The heap that an image's live records stand for, and its way back into the home cells.
//!
//! [`old_heap`] finds it, from the replay of the records: each field takes the value before its first live store that isn't settled, or has
//! the one in its home cell. [`put_back`] writes those values into their cells. `recover` reads the image before that, and ends the recovery
//! after it.
#![tactic(auto)]

mod device;
mod error;
mod heap;
mod putting;

pub use device::sync;
pub use error::RecoverError;
pub use heap::{OldHeap, old_heap};
pub use putting::put_back;
