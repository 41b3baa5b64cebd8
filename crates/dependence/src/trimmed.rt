//! The steps that stay when a part of the log is forgotten.

ghost use Rattle.std.specs.Prelude.{◌≡◌, ◌≤◌, ◌-◌, ◌<◌, ℕ, false, IsFalse, length, slice_index, nat_lt, vec_len, vec_capacity};
ghost use Rattle.std.specs.List.{filter};
ghost use Rattle.dependence.specs.Kept.{IsLinked};
ghost use Rattle.dependence.specs.Links.{lanes_in, sections_in};
ghost use Rattle.dependence.specs.Search.{IsSorted};

use crate::links::Links;
use crate::step::Step;
use crate::steps::{is_past, retain_past};

/// Leaves out the steps of the sections that `base` counts. Where it counts each lane's newest step none stays, and they
/// aren't walked over.
pub fn retain(steps: &mut Vec<Step>, links: &Links, base: &[u64], lanes: u8)
    requires lanes { lanes ≤ 32 }
    requires linked { IsLinked steps.old.items links.now }
    requires sorted { IsSorted steps.old.items lanes }
    ensures kept { steps.new.items ≡ filter (λ s. nat_lt (slice_index base.now s.lane.0) s.section) steps.old.items }
    ensures capacity { vec_capacity steps.new ≡ vec_capacity steps.old }
    ensures fewer { vec_len steps.new ≤ vec_len steps.old }
{
    if has_one_past(steps, links, base, lanes) {
        retain_past(steps, base);
    } else {
        steps.clear();
    }
}

// Whether `base` doesn't count the newest step of a lane.
fn has_one_past(steps: &[Step], links: &Links, base: &[u64], lanes: u8) -> bool
    requires lanes { lanes ≤ 32 }
    requires linked { IsLinked steps.now links.now }
    ensures { IsFalse result → (l : ℕ) → l < lanes → 0 < slice_index links.now.newest l
        → slice_index (sections_in steps.now) (slice_index links.now.newest l - 1) ≤ slice_index base.now (slice_index (lanes_in steps.now) (slice_index links.now.newest l - 1)) }
{
    for lane in 0..lanes as usize {
        let newest = links.newest[lane];
        if newest > 0 && newest <= steps.len() && is_past(base, steps[newest - 1]) {
            return true;
        }
    }
    false
}
