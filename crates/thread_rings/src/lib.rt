//! The rings by which lanes send their logs to the helper.
//!
//! A ring's items are records, and with each release goes a witness: what tells the helper, in its own thread, that its lane
//! had logged just what was sent. The first item is a greeting, which tells whose the ring is; [`open_ring`] sends and takes it, and
//! no count of records has it.
#![tactic(auto)]

mod opening;
mod receiver;
mod ring_records;
mod sender;
mod sent;

pub use opening::open_ring;
pub use receiver::Receiver;
pub use ring_records::{MOST_RING_RECORDS, RingRecords};
pub use sender::Sender;
pub use sent::{Following, Sent};
