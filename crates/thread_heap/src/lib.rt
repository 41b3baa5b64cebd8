//! A heap whose sessions run in threads beside a helper, from its opening to its end.
//!
//! [`open`] makes of a recovered heap the words that threads share, one session for each of their lanes, and the helper. Each session may go
//! to a thread of its own, and the helper to another. Where the image has one lane more than there are threads, it is the helper's own.
//! [`end`] turns a session into its final record; [`close`] hands these records to the helper. The device then has the heap of one legal
//! history, in which each session's part is what its calls returned.
#![tactic(auto)]

mod closing;
mod laws;
mod opening;
mod running_heap;

pub use closing::{close, end};
pub use laws::{helping_law, joined_law, life_law};
pub use opening::open;
pub use running_heap::RunningHeap;
