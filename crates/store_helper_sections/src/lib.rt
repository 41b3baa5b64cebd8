//! Sections of the store's own that change nothing, in a lane of its own.
//!
//! Each takes a guard, stores to fields the values that a cut keeps of them, and frees the guard. So these values are durable in an
//! undo log (Atlas, OOPSLA 2014) before the fields' cells have them. The sections and what threads have beyond the cut are one legal
//! list over the heap that the cut keeps ([`helper_law`]); an image with these live records stands for that heap, whatever lies in
//! the cells of fields to which they store ([`shown_heap_law`]).
#![tactic(auto)]

mod laws;

pub use laws::{helper_law, shown_heap_law};
