//! Tests of: monitor, thread_steps, session, pool.
//!
//! Tests of sessions and of pools, by their public calls alone: the words that they leave, where each limit lies, what calls answer in
//! sections, and threads that share a heap. Pools are tried in the fields of a heap and in a plain row of cells.
//!
//! A scenario is a function that returns plain words, which its test compares once.
#![tactic(auto)]

#[cfg(test)]
mod calls;
#[cfg(test)]
mod contention;
#[cfg(test)]
mod heap;
#[cfg(test)]
mod limits;
#[cfg(test)]
mod pool_calls;
#[cfg(test)]
mod pool_cells;
#[cfg(test)]
mod pool_declared;
#[cfg(test)]
mod pool_heap;
#[cfg(test)]
mod pool_sections;
#[cfg(test)]
mod pool_threads;
#[cfg(test)]
mod races;
#[cfg(test)]
mod row;
#[cfg(test)]
mod transients;
#[cfg(test)]
mod turns;
#[cfg(test)]
mod words;
