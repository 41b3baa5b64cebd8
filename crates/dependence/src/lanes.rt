//! What is counted by lane.

ghost use Rattle.std.specs.Prelude.{◌≡◌, ◌+◌, ◌-◌, ◌^◌, ◌<◌, ◌≤◌, ℕ, max, length, slice_index, slice_set, IsTrue, ◌↔◌};
ghost use Rattle.heap_model.specs.Sections.{undo_action};
ghost use Rattle.heap_model.specs.Cuts.{counts_of};
ghost use Rattle.dependence.specs.Counts.{held_after, ended_after, IsHeldBy};

use crate::step::Step;
use heap_model::{Cut, Lane, UndoRecord};

/// Counts the step: the objects that its lane holds, and the sections of it that have ended.
#[inline(always)]
pub fn count(ended: &mut [u64], held: &mut [usize], next: Step)
    requires lanes { length held.old ≡ 32 }
    requires same_lanes { length ended.old ≡ 32 }
    requires lane { next.lane.0 < 32 }
    requires holds { IsHeldBy (undo_action next.entry) (slice_index held.old next.lane.0) }
    requires fits { slice_index ended.old next.lane.0 + 1 < 2 ^ 64 }
    requires held_fits { slice_index held.old next.lane.0 + 1 < 2 ^ 64 }
    ensures held { held.new ≡ slice_set held.old next.lane.0 (held_after (undo_action next.entry) (slice_index held.old next.lane.0)) }
    ensures ended { ended.new ≡ slice_set ended.old next.lane.0 (ended_after (undo_action next.entry) (slice_index held.old next.lane.0) (slice_index ended.old next.lane.0)) }
{
    let lane = next.lane.0 as usize;
    let (holds, whole) = counted(next.entry, held[lane], ended[lane]);
    held[lane] = holds;
    ended[lane] = whole;
}

#[inline(always)]
fn counted(entry: UndoRecord, held: usize, ended: u64) -> (usize, u64)
    requires holds { IsHeldBy (undo_action entry) held }
    requires fits { ended + 1 < 2 ^ 64 }
    requires held_fits { held + 1 < 2 ^ 64 }
    ensures held { result.0 ≡ held_after (undo_action entry) held }
    ensures ended { result.1 ≡ ended_after (undo_action entry) held ended }
{
    match entry {
        UndoRecord::Acq { .. } => (held + 1, ended),
        UndoRecord::Rel { .. } | UndoRecord::WaitRel { .. } => {
            if held == 1 {
                (0, ended + 1)
            } else {
                (held - 1, ended)
            }
        }
        UndoRecord::Put { .. } => (held, ended),
    }
}

/// Raises each lane's count to the other one, if that is greater.
pub fn raise(base: &mut [u64], to: &[u64])
    requires { length base.old ≡ length to.now }
    ensures { (l : ℕ) → slice_index base.new l ≡ max (slice_index base.old l) (slice_index to.now l) }
{
    for (l, count) in to.iter().enumerate() {
        if base[l] < *count {
            base[l] = *count;
        }
    }
}

/// Whether the section is whole, and is not one of the cut's.
pub fn is_left_out(cut: &Cut, ended: &[u64], lane: Lane, section: u64) -> bool
    requires { length ended.now ≡ 32 }
    ensures { IsTrue result ↔ ((section ≤ slice_index ended.now lane.0) × (counts_of cut.now lane.0 < section)) }
{
    let l = lane.0 as usize;
    l < 32 && section <= ended[l] && cut.counts[l] < section
}
