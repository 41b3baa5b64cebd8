//! What a crash of a host's device keeps of a hosted heap.
//!
//! The host makes the calls of its heap's disk on a device of its own, one by one. Once it has made those by which the heap was opened,
//! recovery accepts whatever a crash leaves of that device. It keeps what was acknowledged as soon as the host has made the calls that were
//! handed over by then ([`host_law`]). While threads run, it keeps whole sections of their one history, each with all that it depends on
//! ([`running_law`]).
#![tactic(auto)]

mod laws;

pub use laws::{host_law, kept_law, running_law, told_law};
