//! What a session has, whether it waits or not.

use crate::limits::MOST_HELD;
use arrayvec::ArrayVec;
use monitor::Seat;
use thread_rings::Sender;
use thread_steps::Grip;

/// The seat of a session's lane, the monitors that it holds, its end of the ring, and its numbers.
#[derive(Drop)]
pub struct Parts {
    pub(crate) seat: Seat,
    pub(crate) ring: Sender,
    // The grips, the newest first.
    pub(crate) held: ArrayVec<Grip, MOST_HELD>,
    // How many records the open section has.
    pub(crate) records: u64,
    // How many records were sent since the session was opened.
    pub(crate) place: u64,
    // How many sections have ended.
    pub(crate) sections: u64,
    // How many records the lane holds.
    pub(crate) capacity: u64,
    // The place up to which the lane was trimmed when that was read last.
    pub(crate) trimmed: u64,
}
