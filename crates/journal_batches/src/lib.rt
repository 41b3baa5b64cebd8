//! Batches of words, by which a device of atomic sectors goes from one image to the next with one flush (docs/FORMAT.md, "A journal in two halves").
//!
//! A batch lies in one of two halves of the journal, by turns; each of its sectors has its stamp. So a crash leaves a batch whole, or no batch. The image's
//! own place gets the words of a batch while the next one is written.
#![tactic(auto)]

mod areas;
mod clear_laws;
mod codec;
mod entry;
mod entry_laws;
mod half_laws;
mod mix_laws;
mod turn_laws;

pub use areas::Areas;
pub use clear_laws::{clear_law, home_law, past_law};
pub use codec::{Found, entries_at, latest_stamp, pages_of, read_batch, replay, spell_page};
pub use entry::Entry;
pub use entry_laws::{again_law, replay_law};
pub use half_laws::{half_law, spelled_law};
pub use mix_laws::{mix_law, write_law};
pub use turn_laws::{rests_law, turn_law};
