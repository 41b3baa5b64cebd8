//! What survives: a store's calls, a crash at any moment, and recovery of what it left.
//!
//! No image that a store leaves is refused ([`accepted_law`]), and its heap is the one that the store keeps ([`found_law`]).
//! Recovery that was cut off or answered a fault finds it again, however often it is run ([`again_law`]); each image on the way
//! has a study ([`has_study_law`]). Of any bytes at all there is a study, or a reason of their own to refuse them
//! ([`each_image_law`]).
//! [`play_and_recover`] says the whole of it: the heap after a crash is that of the acknowledged sections, and of nothing else;
//! calls that acknowledge nothing leave it as it was ([`unsettled_law`]). Where the calls apply the records of a legal history
//! of threads, in whatever order is allowed, that heap is the history's ([`history_law`]); so it is where the calls were made one
//! after another by whomever, a thread's helper say ([`run_law`]). Each call takes one sequence of the control at most, and so does
//! each try to recover; what calls take adds up ([`sequence_law`]). Of a heap of version 1, which a store without transient fields
//! left, an upgrade gives the same ([`upgrade_left`], [`old_history_law`]).
#![tactic(auto)]

mod laws;
mod old_heap;
mod whole_run;

pub use laws::{
    accepted_law, again_law, each_image_law, found_law, has_study_law, history_law,
    old_history_law, run_law, sequence_law, sides_law, unsettled_law,
};
pub use old_heap::upgrade_left;
pub use whole_run::{WholeRun, play_and_recover};
