//! Which sections of a heap depend on which, and the stable cut.
//!
//! A `Graph` takes the lanes' records one by one. It returns the stable cut, the greatest set of whole
//! sections that depends on nothing outside it (Atlas, OOPSLA 2014), and for a whole section outside that
//! cut the first of its dependences that is outside too. What the stable cut counts may be forgotten; the cut is kept up
//! from call to call, and a graph reports how many sections the last call examined.
#![tactic(auto)]

mod candidates;
mod found;
mod graph;
mod lanes;
mod laws;
mod links;
mod neighbours;
mod search;
mod section;
mod step;
mod steps;
mod trimmed;
mod why;

pub use graph::Graph;
pub use laws::allowed_law;
pub use section::Dependence;
