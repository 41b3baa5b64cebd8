//! An object pool: numbered slots, of which some are taken and the others stand in a free list, kept in guarded fields.
//!
//! [`Pool::take`] and [`Pool::give`] work over any [`Cells`] that hold these fields. Their `store_two` does both stores or neither: so however
//! a section ends, each slot is taken or stands in the list once. [`Pool::lay_out`] declares these fields in a schema, and makes the pool. A
//! host that numbers its fields declares them itself, with the values of [`first_value`], and makes the pool by [`Pool::in_fields`].
//!
//! In a heap these cells are the fields whose monitors a session holds ([`InSection`]; [`take`] and [`give`] are the calls by a session itself). What
//! a thread puts into a section by them is logged as its other stores are, so a crash keeps the stores of each call or loses them together.
#![tactic(auto)]

mod cells;
mod error;
mod in_section;
mod laying_out;
mod names;
mod numbered;
mod pool;
mod section_calls;

pub use cells::Cells;
pub use error::PoolError;
pub use in_section::InSection;
pub use numbered::{first_value, free_law};
pub use pool::{MOST_SLOTS, Pool, TAKEN};
pub use section_calls::{give, take};
