//! Recovery of images over rounds of two syncs.
//!
//! Such an image shows a kept heap by its cells and by the records of the helper's lane, which nobody acknowledges
//! (`store_helper_sections`). Recovery undoes these with all else that isn't acknowledged, and so puts the kept values into the cells that
//! lack them: it accepts the image and gives the kept heap ([`two_syncs_law`]), however often it is run
//! ([`two_syncs_again_law`]). So it is with any live records that go on from the heap that an image shows ([`recovery_law`]). A crash
//! at any moment of a round of two syncs leaves such an image, of the cut that was acknowledged before or of the new one
//! ([`crashed_round_law`]). What is kept are whole sections of the threads' history ([`round_run_law`], [`round_again_law`]).
#![tactic(auto)]

mod histories;
mod laws;

pub use histories::{round_again_law, round_run_law};
pub use laws::{
    crashed_round_law, recovery_law, two_syncs_again_law, two_syncs_law, worked_round_law,
};
