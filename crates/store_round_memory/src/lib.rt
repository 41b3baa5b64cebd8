//! What a store for rounds of two syncs keeps in memory beside the records applied and the logged sections.
//!
//! [`RoundMemory`] has what the acknowledged cut keeps, and the logged records beyond it. A survey finds what a later cut keeps of
//! these: the fields that change, with their values, and the number at which each object is first taken beyond that cut.
#![tactic(auto)]

mod counting;
mod keeping;
mod store_round_memory;
mod survey;
#[cfg(test)]
mod tests;

pub use store_round_memory::RoundMemory;
