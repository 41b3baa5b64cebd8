//! What a test knows of the records that it told a graph: enough to tell whether one may come next.

ghost use Rattle.std.specs.Prelude.{◌≡◌, ◌+◌, ◌^◌, ◌<◌, [], ℕ, IfSome};
ghost use Rattle.heap_model.specs.Sections.{Takes, Frees, undo_action};
ghost use Rattle.dependence.specs.Next.{IsObjectBelow};
ghost use Rattle.model_tests.specs.Known.{IsKnown, Follows};

use heap_model::{Lane, ObjectId, UndoRecord};

/// What is known of the records so far.
#[derive(Clone, Copy)]
pub struct Known {
    // By object, a number above those of its takes, and one above those of its releases.
    pub taken: [u64; 16],
    pub freed: [u64; 16],
    // By object, 0, or the lane that holds it and 1.
    pub holders: [u64; 16],
    // How many sections a lane can have at most.
    pub sections: u64,
}

/// What is known of no record.
pub fn of_none() -> Known
    ensures { (base : ℕ → ℕ) → ((l : ℕ) → base l ≡ 0) → IsKnown base [] result.taken result.freed result.holders result.sections }
{
    Known {
        taken: [0; 16],
        freed: [0; 16],
        holders: [0; 16],
        sections: 0,
    }
}

/// What is known once the lane has done this too, if that may come next.
pub fn after(known: Known, lane: Lane, entry: UndoRecord) -> Option<Known>
    ensures object { IfSome result (λ k. IsObjectBelow 4096 entry) }
    ensures follows { IfSome result (λ k. Follows known.taken known.freed known.holders lane.0 (undo_action entry) k.taken k.freed k.holders) }
    ensures fits { IfSome result (λ k. known.sections + 1 < 2 ^ 64) }
    ensures sections { IfSome result (λ k. k.sections ≡ known.sections + 1) }
{
    if known.sections >= 1_000_000_000 {
        return None;
    }
    let more = Known {
        sections: known.sections + 1,
        ..known
    };
    match entry {
        UndoRecord::Acq { object, number } => after_take(more, lane, object, number),
        UndoRecord::Rel { object, number } | UndoRecord::WaitRel { object, number } => {
            after_release(more, lane, object, number)
        }
        UndoRecord::Put { .. } => Some(more),
    }
}

// What is known after a take, if the object's numbers are below this one.
fn after_take(known: Known, lane: Lane, object: ObjectId, number: u64) -> Option<Known>
    ensures low { IfSome result (λ k. object.0 < 16) }
    ensures follows { IfSome result (λ k. Follows known.taken known.freed known.holders lane.0 (Takes object.0 number) k.taken k.freed k.holders) }
    ensures sections { IfSome result (λ k. k.sections ≡ known.sections) }
{
    let o = object.0 as usize;
    if o >= 16 || number == u64::MAX {
        return None;
    }
    if known.taken[o] > number || known.freed[o] > number {
        return None;
    }
    let mut next = known;
    next.taken[o] = number + 1;
    next.holders[o] = lane.0 as u64 + 1;
    Some(next)
}

// What is known after a release, if the lane holds the object and this number is no lower than its others.
fn after_release(known: Known, lane: Lane, object: ObjectId, number: u64) -> Option<Known>
    ensures low { IfSome result (λ k. object.0 < 16) }
    ensures follows { IfSome result (λ k. Follows known.taken known.freed known.holders lane.0 (Frees object.0 number) k.taken k.freed k.holders) }
    ensures sections { IfSome result (λ k. k.sections ≡ known.sections) }
{
    let o = object.0 as usize;
    if o >= 16 || number == u64::MAX || known.holders[o] != lane.0 as u64 + 1 {
        return None;
    }
    if known.taken[o] > number + 1 || known.freed[o] > number {
        return None;
    }
    let mut next = known;
    next.freed[o] = number + 1;
    next.holders[o] = 0;
    Some(next)
}
