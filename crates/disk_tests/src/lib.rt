//! Tests of: block_disk, disk_file, disk_sectors, disk_sector_file, disk_deferred, atomic_sectors, journal_batches, disk_journal.
//!
//! Tests of disks, by public calls.
//!
//! They stand in a crate of their own, since a crate with tests is proved twice. A scenario is a table of steps, each with
//! what is to come of it, or a function that returns plain words, which its test compares once.
#![tactic(auto)]

#[cfg(test)]
mod buffered;
#[cfg(test)]
mod deferred;
#[cfg(test)]
mod flaky_file;
#[cfg(test)]
mod memory;
#[cfg(test)]
mod sectors;
#[cfg(test)]
mod steps;
#[cfg(test)]
mod units;
