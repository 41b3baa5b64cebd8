//! What a crash of the device below a journal keeps of a hosted heap.
//!
//! The host makes the calls of its heap's disk by a journal (`host_journal`), over a device of atomic sectors. What a crash of that device leaves then, a
//! crash of the host's device might have left without a journal, at some moment since the journal's last sync ([`left_law`]). So recovery accepts it, and
//! keeps all that was acknowledged by then ([`journal_law`]). The host gives the journal what it makes, from the opening on, call by call ([`given_law`]).
#![tactic(auto)]

mod laws;

pub use laws::{given_law, journal_law, left_law};
