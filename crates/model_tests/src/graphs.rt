//! Tests of the graph of sections: lists whose cuts and reasons are known, and lists that a seed chooses.

mod chosen_lists;
mod known;
mod known_lists;
mod told;
