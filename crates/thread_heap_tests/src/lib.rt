//! Tests of: trim_helper, thread_heap, headline.
//!
//! Heaps that run, by their public calls alone: how far a session comes ahead of its helper, what closing answers, and what a device that fails
//! leaves.
//!
//! And a heap whose helper has a lane of its own: its rounds take two syncs.
//!
//! And heaps that crash while workers run. Whatever a crash leaves at any call of the device, recovery keeps whole sections of what the workers
//! did, as each of them noted it, and all that was acknowledged before. In a pool's fields it finds a free list with no slot twice.
#![tactic(auto)]

#[cfg(test)]
mod counted_disk;
#[cfg(test)]
mod endings;
#[cfg(test)]
mod faults;
#[cfg(test)]
mod heap;
#[cfg(test)]
mod helpers_lane;
#[cfg(test)]
mod images;
#[cfg(test)]
mod notes;
#[cfg(test)]
mod pool_lists;
#[cfg(test)]
mod pool_runs;
#[cfg(test)]
mod races;
#[cfg(test)]
mod room;
#[cfg(test)]
mod syncs;
#[cfg(test)]
mod turns;
#[cfg(test)]
mod work;
#[cfg(test)]
mod workers;
