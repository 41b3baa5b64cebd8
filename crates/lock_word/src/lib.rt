//! The words that threads share: what each says, and how its 64 bits say it.
//!
//! A [`LockWord`] is an object's lock (Thin Locks, PLDI 1998, section 2; the layout is this
//! project's own). A [`FatWord`] is the lock of a monitor that was inflated, and a [`WaitMask`]
//! the set of threads that wait for it. Only `bits` and `parse` know where the parts lie.
#![tactic(auto)]

mod fat_word;
mod laws;
mod lock_word;
mod number;
mod wait_mask;

pub use fat_word::{FatShape, FatWord};
pub use laws::{mask_law, members_law, one_word_law, sight_law};
pub use lock_word::{FAT_SLOTS, LockWord, Shape, THIN_THREADS};
pub use number::is_release_number;
pub use wait_mask::{WaitMask, is_lane};
