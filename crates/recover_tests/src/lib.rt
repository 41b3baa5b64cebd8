//! Tests of: recover, law_survival.
//!
//! Tests of recovery by its public calls: images with hand-made logs, stores that crashed, and the texts of refusals.
//!
//! They stand apart from the rooms that they test, since a crate with tests is proved twice.
#![tactic(auto)]

#[cfg(test)]
mod crashed_stores;
#[cfg(test)]
mod hand_made_logs;
#[cfg(test)]
mod refusal_texts;
