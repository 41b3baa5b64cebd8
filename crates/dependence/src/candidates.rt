//! Which sections may be stable by now.

ghost use Rattle.std.specs.Prelude.{◌<◌, ◌≤◌, IsTrue, slice_index};
ghost use Rattle.heap_model.specs.Cuts.{counts_of};
ghost use Rattle.dependence.specs.Search.{AreAbove, KeepsAbove};

use crate::section::Dependence;
use heap_model::Cut;

/// The sections that may be stable: all that have ended, but for the lanes whose cause is none of them.
///
/// A lane whose cause is out has no more than was answered. That may be the cause of another lane, so
/// that the lanes are gone through until nothing changes, at most as many times as there are lanes.
pub fn candidates(
    lanes: u8,
    ended: &[u64; 32],
    answered: &Cut,
    causes: &[Option<Dependence>; 32],
) -> Cut
    requires lanes { lanes ≤ 32 }
    ensures { AreAbove causes.now (counts_of answered.now) (slice_index ended.now) (counts_of result) }
{
    let mut cut = Cut { counts: *ended };
    for _ in 0..lanes {
        if !bar_all(lanes, answered, causes, &mut cut) {
            return cut;
        }
    }
    cut
}

// Bars each lane whose cause is out. Returns whether the cut has changed.
fn bar_all(lanes: u8, answered: &Cut, causes: &[Option<Dependence>; 32], cut: &mut Cut) -> bool
    requires lanes { lanes ≤ 32 }
    ensures { KeepsAbove causes.now (counts_of answered.now) (counts_of cut.old) (counts_of cut.new) }
{
    let mut is_changed = false;
    for lane in 0..lanes as usize {
        is_changed |= bar(lane, answered, causes, cut);
    }
    is_changed
}

// Bars the lane if its cause is out: it has no more than was answered. Returns whether the cut has changed.
fn bar(lane: usize, answered: &Cut, causes: &[Option<Dependence>; 32], cut: &mut Cut) -> bool
    requires lane { lane < 32 }
    ensures { KeepsAbove causes.now (counts_of answered.now) (counts_of cut.old) (counts_of cut.new) }
{
    if let Some(cause) = causes[lane] {
        if is_out(cut, cause) {
            let is_changed = cut.counts[lane] != answered.counts[lane];
            cut.counts[lane] = answered.counts[lane];
            return is_changed;
        }
    }
    false
}

fn is_out(cut: &Cut, cause: Dependence) -> bool
    ensures { IsTrue result → counts_of cut.now cause.lane.0 < cause.section }
{
    match cut.counts.get(cause.lane.0 as usize) {
        Some(count) => *count < cause.section,
        None => false,
    }
}
