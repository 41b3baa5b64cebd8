//! The words that every other crate speaks by.
//!
//! What threads do to monitors and fields, what their logs keep of it, which records make a section,
//! which sections depend on which, and which heap a cut of them keeps. The definitions are in `specs/`,
//! to be read in the order that docs/PROOFS.md gives; what holds of them is proved in `law_cuts` and `law_histories`.
//! A store is described by its past (`specs/Past.antt`): the records applied to it, and what became of them.
//! Nothing here knows a device, a word in memory or a place in a log.
#![tactic(auto)]

mod cut;
mod event;
mod ids;
mod limits;
mod new_records;
mod record;
mod store_error;

pub use cut::Cut;
pub use event::{Event, Sight};
pub use ids::{FieldId, Lane, ObjectId};
pub use limits::{
    LANES, LAST_NUMBER, LAST_PLACE, LEAST_CAPACITY, MOST_CAPACITY, MOST_FIELDS, MOST_OBJECTS,
    RING_RECORDS, SECTION_RECORDS,
};
pub use new_records::NewRecords;
pub use record::{LaneRecord, Record, UndoRecord};
pub use store_error::StoreError;
