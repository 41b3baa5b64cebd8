//! A store that makes rounds of two syncs (Atlas, OOPSLA 2014; the helper's sections are this project's own).
//!
//! [`RoundStore::adopt`] takes a recovered device over. [`RoundStore::apply`] takes the records of each lane, in memory alone.
//! [`RoundStore::round`] makes durable what was applied and acknowledges its stable cut: by two syncs where the image has a lane for
//! the helper, and the values that the round changes fit in it; else by four. At every moment a crash leaves an image that shows the
//! acknowledged cut of what was applied, or the one that the round acknowledges. [`RoundStore::flush`] brings the kept values home.
//! Each of these calls is a run, and runs made one after another are one run ([`round_run_law`], [`flush_run_law`], [`apply_run_law`],
//! [`run_on_law`]).
#![tactic(auto)]

mod beginning;
mod cells;
mod keeping;
mod laws;
mod meeting;
mod records;
mod rounds;
mod rows;
mod store;
mod turning;

pub use laws::{apply_run_law, flush_run_law, round_run_law, run_on_law};
pub use store::RoundStore;
