//! The helper: the thread that owns the store, applies what the sessions send, and makes it durable (Atlas, OOPSLA 2014).
//!
//! [`open_heap`] opens a recovered heap for threads: the words that they share and the store begin with its values.
//! [`Helper::drain`] applies what the rings hold, in memory alone, in whatever order the lanes come; [`Helper::round`] then makes it
//! durable, acknowledges its stable cut, forgets what is acknowledged, so that the lanes never fill, and publishes both. [`close_down`]
//! is where both ends meet: what was received and what is left is what was sent, and the device holds the heap of all of it.
#![tactic(auto)]

mod close_error;
mod closing_down;
mod draining;
mod ended;
mod hearing;
mod helper;
mod leaving;
mod meeting;
mod meets;
mod opening;
mod own_disk;
mod published;
mod rings;
mod settling;

pub use close_error::CloseError;
pub use closing_down::close_down;
pub use ended::Ended;
pub use hearing::seen_law;
pub use helper::Helper;
pub use leaving::leave;
pub use opening::{Opened, open_heap};
