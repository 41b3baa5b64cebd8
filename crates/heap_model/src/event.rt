//! What threads do, as a history keeps it.
//!
//! Histories are for what is said of running threads: none is kept at run time.

use crate::ids::{FieldId, Lane, ObjectId};
use std::collections::LinkedList;

/// What a look tells a thread.
#[derive(Drop)]
pub enum Sight {
    /// The monitor: its owner, the count of the owner's locks (0 where it is free), and its release number.
    Found {
        owner: Option<Lane>,
        count: u64,
        number: u64,
    },
    /// The thread itself is still in the monitor's wait set.
    StillInSet,
}

/// What a thread does, with what it is told.
///
/// An event carries what the thread's log needs: a `number` is the release number that the thread
/// found, `before` the value that it replaced. So a thread's log is a function of its own events.
#[derive(Drop)]
pub enum Event {
    /// A lock of a monitor that was free (JLS 17.1).
    Enter {
        object: ObjectId,
        number: u64,
    },
    /// A lock of a monitor that the thread owns (JLS 17.1).
    NestedEnter {
        object: ObjectId,
    },
    /// An unlock that leaves the thread the owner (JLS 17.1).
    NestedExit {
        object: ObjectId,
    },
    /// The unlock that frees the monitor (JLS 17.1).
    Exit {
        object: ObjectId,
        number: u64,
    },
    /// A read of a field, which gave `value`.
    Load {
        field: FieldId,
        value: u64,
    },
    /// A write of a field.
    Store {
        field: FieldId,
        before: u64,
        after: u64,
    },
    /// The thread joins the wait set and frees the monitor, by as many unlocks as it has locks (JLS 17.2.1).
    Wait {
        object: ObjectId,
        number: u64,
    },
    /// The thread, removed from the wait set, takes the monitor again by as many locks (JLS 17.2.1).
    Resume {
        object: ObjectId,
        number: u64,
    },
    /// One member of the wait set is removed, or none where it is empty (JLS 17.2.2).
    Notify {
        object: ObjectId,
        woken: Option<Lane>,
    },
    /// All members of the wait set are removed (JLS 17.2.2).
    NotifyAll {
        object: ObjectId,
        woken: LinkedList<Lane>,
    },
    /// The thread looks at the monitor.
    Look {
        object: ObjectId,
        sight: Sight,
    },
}
