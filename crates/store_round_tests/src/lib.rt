//! Tests of: law_rounds, store_rounds.
//!
//! Images over rounds of two syncs, made by hand or by a store, and what recovery gives of them.
#![tactic(auto)]

#[cfg(test)]
mod made_rounds;
#[cfg(test)]
mod worked_rounds;
