//! A heap's device over a journal, for a host that makes the calls of both.
//!
//! A heap whose calls a host makes hands them over in groups, each of which ends with a sync. [`HostJournal`] takes these calls in place of a device: a sync behind
//! which more groups wait only sets an order, and the last one makes all of them durable, by one flush of the device below, if their words fit into one
//! batch of the journal.
#![tactic(auto)]

mod gathering;
mod journal;
mod laws;
mod opening;
mod piece;
mod reading;
mod room;
mod taking;

pub use journal::HostJournal;
