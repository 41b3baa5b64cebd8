//! Tests of: thread_drive.
//!
//! Tests of workers, by public calls alone: what they leave, that their sections run side by side, that others go on with an
//! image of theirs, and that a failing disk ends them all.
#![tactic(auto)]

#[cfg(test)]
mod apart;
#[cfg(test)]
mod ending;
#[cfg(test)]
mod faults;
#[cfg(test)]
mod going_on;
#[cfg(test)]
mod meeting;
#[cfg(test)]
mod rows;
