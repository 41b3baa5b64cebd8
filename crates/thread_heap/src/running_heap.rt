//! A heap that is open for threads.

use block_disk::Disk;
use monitor::Shared;
use session::Session;
use trim_helper::Helper;

/// A heap that is open for threads.
#[derive(Drop)]
pub struct RunningHeap<D: Disk> {
    /// The words that the threads share, with the recovered values.
    pub shared: Shared,
    /// The session of each of the threads' lanes, lane i's as the i-th.
    pub sessions: Vec<Session>,
    /// The helper, to which the sessions send. It owns the device.
    pub helper: Helper<D>,
}
