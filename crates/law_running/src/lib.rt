//! What a crash keeps of a heap that runs, and of one that ran and was closed.
//!
//! Each law is the contract of a function that does nothing.
//!
//! A crash may come at any moment of a heap's life, from its opening to its end. Recovery accepts what it left, and keeps whole sections of
//! the one history of the heap's threads, each with every section that it depends on.
//! - While threads run, that holds in each history that goes on from what the helper has seen ([`round_law`]). After a fault nothing of it
//!   changes ([`failed_law`]).
//! - Once the heap is closed, it holds in the history of which the closing tells each session's part ([`crash_law`]).
//! - What a session has read as stable is kept from then on ([`stable_law`]), also where it read in the midst of a round ([`halves_law`]).
//!
//! They stand on a law of logs. A log may have more of a lane than another: records after the lane's last release, which the other hasn't
//! yet. What a cut keeps of the one, it keeps of the other ([`released_law`]).
#![tactic(auto)]

mod laws;
mod releases;

pub use laws::{crash_law, failed_law, halves_law, round_law, stable_law};
pub use releases::released_law;
