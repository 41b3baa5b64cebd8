//! The steps of a graph, the oldest first.

ghost use Rattle.std.specs.Prelude.{◌≡◌, ◌≤◌, ◌+◌, ◌<◌, ℕ, length, slice_index, nat_lt, vec_len, vec_capacity};
ghost use Rattle.std.specs.List.{filter};
ghost use Rattle.heap_model.specs.Sections.{undo_action};
ghost use Rattle.law_cuts.specs.Plain.{takes_after};

use crate::step::Step;
use heap_model::UndoRecord;

/// Leaves out the steps of the sections that `base` counts.
pub fn retain_past(steps: &mut Vec<Step>, base: &[u64])
    ensures kept { steps.new.items ≡ filter (λ s. nat_lt (slice_index base.now s.lane.0) s.section) steps.old.items }
    ensures capacity { vec_capacity steps.new ≡ vec_capacity steps.old }
    ensures fewer { vec_len steps.new ≤ vec_len steps.old }
{
    steps.retain(|s| is_past(base, *s));
}

/// Whether the step is of a section that `base` doesn't count.
#[inline(always)]
pub fn is_past(base: &[u64], step: Step) -> bool
    ensures { result ≡ nat_lt (slice_index base.now step.lane.0) step.section }
{
    match base.get(step.lane.0 as usize) {
        Some(count) => *count < step.section,
        None => 0 < step.section,
    }
}

/// Whether the first record takes what the second freed.
#[inline(always)]
pub fn takes_what_frees(taken: UndoRecord, freed: UndoRecord) -> bool
    ensures { result ≡ takes_after (undo_action taken) (undo_action freed) }
{
    match (taken, freed) {
        (
            UndoRecord::Acq { object, number },
            UndoRecord::Rel {
                object: other,
                number: at,
            }
            | UndoRecord::WaitRel {
                object: other,
                number: at,
            },
        ) => object.0 == other.0 && number > 0 && number - 1 == at,
        _ => false,
    }
}
