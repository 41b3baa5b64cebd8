//! Tests of: heap_model, store_image, store_memory, durable.
//!
//! What the parts of a store answer, by their public calls: a memory that takes records, an image that is made, and stores
//! whose answers, device calls and crash images are known.
#![tactic(auto)]

#[cfg(test)]
mod crash_tests;
#[cfg(test)]
mod device_tests;
#[cfg(test)]
mod format_tests;
#[cfg(test)]
mod memory_tests;
#[cfg(test)]
mod section_tests;
#[cfg(test)]
mod stores;
#[cfg(test)]
mod transient_tests;
#[cfg(test)]
mod trim_tests;
