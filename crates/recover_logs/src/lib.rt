//! Whether lanes' live records are logs that threads can have left.
//!
//! [`check_logs`] replays the records from all monitors free, and tests that each lane is settled where it holds nothing
//! and that no settled record takes what one that isn't settled freed. Nothing here knows a device or an image: the
//! records, the fields' guards and the settled counts come from whoever read them. [`Monitors`] and [`LaneCount`] give
//! what a list of records leaves of the monitors and of a lane.
#![tactic(auto)]

mod check;
mod crossings;
mod error;
mod first_numbers;
mod lane_count;
mod lanes;
mod monitors;
mod replay;
mod rules;
mod settled;
mod settled_count;
mod step;
mod walk;

pub use check::check_logs;
pub use error::LogsError;
pub use lane_count::{LaneCount, count_all};
pub use lanes::records_in;
pub use monitors::Monitors;
pub use settled::tally;
pub use settled_count::SettledCount;
pub use step::Step;
