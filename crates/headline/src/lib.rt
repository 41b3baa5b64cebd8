//! The headline: what recovery gives of what a crash left of a heap, while threads ran over it.
//!
//! For a heap on a device of the program's own ([`recover_left`]), and for one whose calls a host makes ([`recover_left_of_host`]). Each
//! program that opens a heap and makes rounds meets the premise ([`lives_law`]).
#![tactic(auto)]

mod living;
mod recovering;

pub use living::lives_law;
pub use recovering::{recover_left, recover_left_of_host};
