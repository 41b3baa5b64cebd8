//! Tests of: host_heap.
//!
//! A hosted heap, by its public calls alone: what recovery keeps of its host's device, at the end of a life and where the host stops between
//! two calls. Also: how many calls a round makes and how many records it applies, how many a lane's ring has room for, what sessions learn
//! of a call that failed, lanes whose sessions come and go, and which lane is the helper's.
#![tactic(auto)]

#[cfg(test)]
mod again;
#[cfg(test)]
mod counts;
#[cfg(test)]
mod device;
#[cfg(test)]
mod helpers_lane;
#[cfg(test)]
mod host;
#[cfg(test)]
mod lives;
#[cfg(test)]
mod rings;
#[cfg(test)]
mod stops;
#[cfg(test)]
mod work;
