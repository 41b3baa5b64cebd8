//! Tests of: thread_work, thread_files.
//!
//! Tests of threads of one's own, by public calls alone: bodies that wait for one another, what a run answers of them, that others go on
//! with their image, in memory or in the file that is named, and that `durable` ends with the helper.
#![tactic(auto)]

#[cfg(test)]
mod answers;
#[cfg(test)]
mod faults;
#[cfg(test)]
mod files;
#[cfg(test)]
mod room;
#[cfg(test)]
mod turns;
