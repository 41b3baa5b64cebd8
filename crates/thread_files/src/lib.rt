//! Threads of one's own on the heap of an image file.
//!
//! [`run_file`] makes the image where there is none, or recovers the one that is there, and lets threads do their work ([`Work`]), as
//! many as its [`FilePlan`] says. [`run_at`] is what it does over any [`Images`](image_file::Images).
#![tactic(auto)]

mod error;
mod files;
mod plan;

pub use error::FileRunError;
pub use files::{run_at, run_file};
pub use plan::FilePlan;
pub use thread_work::{
    FieldId, HeapThread, HelperStopped, Joint, Lane, ObjectId, Outcome, RingRecords, RunError,
    Schema, SchemaBuilder, SchemaError, SessionError, Work,
};
