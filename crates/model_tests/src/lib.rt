//! Tests of: heap_model, law_cuts, dependence, recover_logs, lock_word.
//!
//! Tests of the words that every room speaks by, by public calls: what the definitions mean, how words are spelt, and the graph of sections.
//!
//! They stand in one crate, since a crate with tests is proved twice. A scenario is a function that returns plain words,
//! which its test compares once.
#![tactic(auto)]

#[cfg(test)]
mod graphs;
#[cfg(test)]
mod histories;
#[cfg(test)]
mod lane_counts;
#[cfg(test)]
mod lock_words;
