//! A running heap for a host that isn't written in Rattle, and that makes the device's calls itself.
//!
//! [`format`] makes a [`HostedHeap`] of objects and fields, and [`open`] makes it of the bytes that the host's device has, on a
//! [`DeferredDisk`](disk_deferred::DeferredDisk). Both take how many threads the host has, and the room of the rings. The heap hands out a
//! [`HostedSession`] for each lane of the threads', which may go to a thread of the host's. Where the image has more lanes than the host
//! has threads, the last one is the helper's own. The host asks [`HostedHeap::next_call`] what to write and sync. No call waits, and no
//! two values that belong to different heaps are ever passed to one call.
#![tactic(auto)]

mod again;
mod beginning;
mod closing;
mod copying;
mod error;
mod heap;
mod lane_end;
mod opening;
mod pools;
mod returned;
mod returning;
mod room;
mod seated;
mod stop;
mod stop_word;
mod waiting;

pub use closing::{Closed, NotClosed};
pub use error::{AcknowledgedError, CloseRefusal, FailedCall, HostError, RoundError};
pub use heap::HostedHeap;
pub use opening::{format, open};
pub use returned::Returned;
pub use returning::Returning;
pub use room::{CLOSE_SYNCS, ROUND_SYNCS};
pub use seated::HostedSession;
pub use stop_word::StopWord;
pub use waiting::HostedWaiting;
