//! Recovery: what an image stands for after a crash, whatever its bytes are, and how it is made so.
//!
//! [`study`] reads an image of which nothing is known, and refuses it by the first thing that is wrong with it: header, guard rows, control,
//! records, or logs that no threads can have left. Otherwise it tells what the image holds, the heap that it stands for, and which sections are
//! kept and dropped. [`recover`] puts that heap into the home cells and empties the logs. A crash at any moment of it leaves an image that
//! stands for the same heap.
//!
//! An image of version 1 had no transient fields. It is read as one that has none, and [`recover`] refuses it. [`upgrade`] recovers it
//! too, and so makes it one of version 2, in place.
#![tactic(auto)]

mod check;
mod dropping;
mod ending;
mod findings;
mod front;
mod graph_of;
mod laws;
mod live_counts;
mod live_sections;
mod logged_image;
mod logs;
mod reading;
mod recovering;
mod replayed;
mod report;
mod studied;
mod studying;
mod version;
mod versions;

pub use laws::{one_study_law, same_heap_law, studied_law, study_law, transient_law};
pub use recover_heap::RecoverError;
pub use recovering::{recover, recover_of, upgrade};
pub use report::{Dropped, Report, Why};
pub use studied::Study;
pub use studying::study;
pub use versions::Versions;
