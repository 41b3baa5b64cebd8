//! A plain machine of monitors, wait sets and guarded fields (JLS 17.1, 17.2), for threads that take turns.
//!
//! [`Monitors`] returns which event a thread's step would be, or refuses it, and does it. Contracts see it as
//! `heap_model`'s plain state. It knows nothing of records, of a store, or of text.
#![tactic(auto)]

mod monitor;
mod monitors;
mod pause;
mod refusal;
mod values;
mod wait_sets;

pub use monitors::Monitors;
pub use refusal::MonitorRefusal;
