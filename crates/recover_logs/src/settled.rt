//! The places up to which lanes are settled.
ghost use Rattle.std.specs.Prelude.{◌≡◌, ◌↔◌, ◌+◌, ◌-◌, ◌<◌, ◌≤◌, ◌^◌, ℕ, IsTrue, MatchOption, length, map};
ghost use Rattle.heap_model.specs.Sections.{holding, ended};
ghost use Rattle.recover_logs.specs.Logs.{count_of, records_of, settled_of};
ghost use Rattle.recover_logs.specs.Settled.{AreWithin, FindsRestlessLane, IsLaneAtRest};
ghost use Rattle.recover_logs.specs.Tally.{FreesHeld, acts_of, IsRestAfter};

use crate::count_all;
use crate::lanes::records_in;
use crate::settled_count::SettledCount;
use heap_model::{Lane, UndoRecord};

/// The least lane that isn't settled up to a place where it holds nothing, or of which more sections ended before that
/// place than are kept. Each record is looked at once.
pub fn least_restless(counts: &[SettledCount], logs: &[Vec<UndoRecord>]) -> Option<Lane>
    requires lanes { length logs.now ≤ 32 }
    requires counts { length counts.now ≡ 32 }
    requires held { (l : ℕ) → FreesHeld (acts_of (records_of logs.now l)) }
    requires within { AreWithin counts.now logs.now }
    ensures { FindsRestlessLane counts.now logs.now result }
{
    for lane in 0..logs.len() as u8 {
        if !is_at_rest(counts, logs, Lane(lane)) {
            return Some(Lane(lane));
        }
    }
    None
}

fn is_at_rest(counts: &[SettledCount], logs: &[Vec<UndoRecord>], lane: Lane) -> bool
    requires lane { lane.0 < length logs.now }
    requires count { lane.0 < length counts.now }
    requires held { FreesHeld (acts_of (records_of logs.now lane.0)) }
    requires within { settled_of counts.now lane.0 ≤ length (records_of logs.now lane.0) }
    ensures { IsTrue result ↔ IsLaneAtRest counts.now logs.now lane }
{
    let count = count(counts, lane);
    rests_after(records_in(logs, lane), count.records, count.sections)
}

// The lane's count.
fn count(counts: &[SettledCount], lane: Lane) -> SettledCount
    requires { lane.0 < length counts.now }
    ensures { result ≡ count_of counts.now lane.0 }
{
    counts[usize::from(lane.0)]
}

// Whether the lane holds nothing after so many of its records, and no more than `kept` sections ended in them.
fn rests_after(records: &[UndoRecord], settled: usize, kept: u64) -> bool
    requires held { FreesHeld (acts_of records.now) }
    requires within { settled ≤ length records.now }
    ensures { IsTrue result ↔ IsRestAfter records.now settled kept }
{
    let (held, whole) = tally(&records[..settled]);
    held == 0 && whole <= kept
}

/// How many objects the lane holds after these records, and how many sections ended in them.
pub fn tally(records: &[UndoRecord]) -> (usize, u64)
    requires held { FreesHeld (acts_of records.now) }
    ensures held { result.0 ≡ length (holding (acts_of records.now)) }
    ensures ended { result.1 ≡ ended (acts_of records.now) }
{
    let count = count_all(records);
    (count.held as usize, count.ended)
}
