//! Crashes of disks on a device of sectors.
//!
//! A disk is written by chance and synced. A crash comes in the sync or after it, and what was in flight becomes what one of four models says.
//! Then the disk is opened on what is left: each byte that wasn't written since the last sync must be there.

mod again;
mod chance;
mod damage;
mod in_place;
mod journal;
mod journal_on_file;
mod medium;
mod on_file;
mod stale_journal;
mod truth;
mod two_places;
