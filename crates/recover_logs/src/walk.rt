//! The walk through a replay that finds settled records which take what records that aren't settled freed.
ghost use Rattle.std.specs.Prelude.{◌≡◌, ◌↔◌, ◌+◌, ◌<◌, ◌^◌, ℕ, All, IsTrue, None, false, slice_index_or, length, slice_index};
ghost use Rattle.recover_logs.specs.Limits.{IsInRange};
ghost use Rattle.recover_logs.specs.Crossings.{FindsCrossing, FindsLeastCrossing, IsCrossingBy, IsCrossingStep, late_after, late_with, lesser, places_after};
ghost use Rattle.recover_logs.specs.Tables.{IsLow};

use crate::crossings::{Crossings, LanePlace};
use crate::settled_count::SettledCount;
use crate::step::Step;
use heap_model::{MOST_OBJECTS, UndoRecord};

/// The least lane with a settled record that takes an object which a record that isn't settled freed last, and the place of
/// the first record of that kind. Each step is looked at once.
pub fn least_crossing(counts: &[SettledCount], steps: &[Step]) -> Option<LanePlace>
    requires counts { length counts.now ≡ 32 }
    requires low { All IsLow steps.now }
    ensures { FindsLeastCrossing counts.now steps.now result }
{
    let mut crossings = nothing_met();
    for step in steps {
        let count = counts[usize::from(step.lane.0)];
        look_at(&mut crossings, count.records, *step);
    }
    crossings.least
}

// Before the first step.
fn nothing_met() -> Crossings
    ensures places { (l : ℕ) → slice_index result.places l ≡ 0 }
    ensures late { (o : ℕ) → slice_index_or result.late o false ≡ false }
    ensures least { result.least ≡ None }
{
    Crossings {
        places: [0; 32],
        late: [false; MOST_OBJECTS],
        least: None,
    }
}

// Takes up the lane's next record. So many of its records are settled.
fn look_at(crossings: &mut Crossings, settled: usize, step: Step)
    requires low { IsLow step }
    requires fits { slice_index crossings.old.places step.lane.0 + 1 < 2 ^ 64 }
    ensures places { crossings.new.places ≡ places_after crossings.old step }
    ensures late { crossings.new.late ≡ late_with crossings.old settled step }
    ensures found { FindsCrossing crossings.old crossings.new settled step.lane step.entry }
    ensures none { (IsCrossingStep crossings.old settled step → ⊥)
        → crossings.new.least ≡ crossings.old.least }
{
    let place = crossings.places[usize::from(step.lane.0)];
    let is_settled = place < settled;
    if is_crossing(&crossings.late, step.entry, is_settled) {
        let found = LanePlace {
            lane: step.lane,
            place,
        };
        crossings.least = Some(lesser_of(crossings.least, found));
    }
    note_release(&mut crossings.late, step.entry, is_settled);
    crossings.places[usize::from(step.lane.0)] = place + 1;
}

fn is_crossing(late: &[bool], entry: UndoRecord, is_settled: bool) -> bool
    requires { length late.now ≡ 4096 }
    ensures { IsTrue result ↔ IsCrossingBy late.now entry is_settled }
{
    match entry {
        UndoRecord::Acq { object, .. } => match late.get(object.0 as usize) {
            Some(is_late) => is_settled && *is_late,
            None => false,
        },
        _ => false,
    }
}

fn note_release(late: &mut [bool], entry: UndoRecord, is_settled: bool)
    requires objects { length late.old ≡ 4096 }
    requires low { IsInRange entry }
    ensures { late.new ≡ late_after late.old entry is_settled }
{
    if let UndoRecord::Rel { object, .. } | UndoRecord::WaitRel { object, .. } = entry {
        late[object.0 as usize] = !is_settled;
    }
}

// In one lane the place that was met first is the lesser.
fn lesser_of(least: Option<LanePlace>, found: LanePlace) -> LanePlace
    ensures { result ≡ lesser least found }
{
    match least {
        Some(least) if least.lane.0 <= found.lane.0 => least,
        _ => found,
    }
}
