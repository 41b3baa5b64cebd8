//! Threads of one's own on a heap: each lane's [`Work`] in a thread of the system, beside the helper that makes durable what they do.
//!
//! [`run_heap`] lets them work on a heap that was recovered, closes it, and recovers it again: [`work_on`] is its first half, and
//! [`close_returned`] the second. [`run_new`] makes the image first ([`make_heap`]), and [`run_on`] recovers one that is there
//! ([`find_heap`]). A thread works through its [`HeapThread`], whose calls are those of a session and require
//! nothing. [`HeapThread::durable`] sleeps until no crash can take back what the thread has ended ([`durable_law`]).
#![tactic(auto)]

mod bell;
mod beside;
mod body;
mod crashes;
mod devices;
mod error;
mod fitting;
mod image_lanes;
mod joint;
mod outcome;
mod returned;
mod running;
mod serving;
mod thread;
mod work;

pub use crashes::{durable_law, taken_law};
pub use devices::{Ran, find_heap, make_heap, run_new, run_on};
pub use error::RunError;
pub use fitting::is_of;
pub use guards::{Schema, SchemaBuilder, SchemaError};
pub use heap_model::{FieldId, Lane, ObjectId};
pub use image_lanes::{has_lanes_for, lanes_for};
pub use joint::Joint;
pub use outcome::Outcome;
pub use returned::{Returned, leave_returned};
pub use running::{close_returned, run_heap, work_on};
pub use session::SessionError;
pub use thread::{HeapThread, HelperStopped};
pub use thread_rings::RingRecords;
pub use work::Work;
