//! Tests of: guards, image, undo_log.
//!
//! Tests of what an image is made of, by public calls: schemas, the image itself, and the records of logs.
//!
//! They stand in one crate, since what each test crate takes of the ones below costs more than the tests. A scenario is a
//! function that returns plain words, which its test compares once.
#![tactic(auto)]

#[cfg(test)]
mod commits;
#[cfg(test)]
mod controls;
#[cfg(test)]
mod faults;
#[cfg(test)]
mod images;
#[cfg(test)]
mod logs;
#[cfg(test)]
mod marks;
#[cfg(test)]
mod parts;
#[cfg(test)]
mod reading;
#[cfg(test)]
mod records;
#[cfg(test)]
mod schemas;
#[cfg(test)]
mod turns;
#[cfg(test)]
mod unread;
#[cfg(test)]
mod words;
