//! The sections of a list of records, counted plainly.

ghost use Rattle.std.specs.Prelude.{◌≡◌, ◌+◌, ◌≤◌, if◌then◌else◌, List, ◌∷◌, map, length, reverse, IfOk, ◌==◌, position};
ghost use Rattle.heap_model.specs.Log.{lane, log_from};
ghost use Rattle.heap_model.specs.Sections.{Action, action, actions, without, holding, ended};
ghost use Rattle.law_cuts.specs.Plain.{numbers, HasSections};

use crate::step::Step;
use heap_model::{Lane, LaneRecord, ObjectId, Record};
use std::alloc::{AllocError, Global};

/// Each record with its section's number.
pub(crate) fn numbered(alloc: Global, records: &[LaneRecord]) -> Result<Vec<Step>, AllocError>
    ensures entries { IfOk result (λ steps. map (λ s. s.entry) steps.items ≡ records.now) }
    ensures sections { IfOk result (λ steps. HasSections (reverse steps.items)) }
{
    let mut steps = Vec::new(alloc);
    for (i, entry) in records.iter().enumerate() {
        let section = ended_sections(alloc, &records[..i], entry.lane)? + 1;
        steps.push(Step {
            entry: *entry,
            section,
        })?;
    }
    Ok(steps)
}

/// How many sections of the lane have ended.
pub(crate) fn ended_sections(
    alloc: Global,
    records: &[LaneRecord],
    of: Lane,
) -> Result<u64, AllocError>
    ensures count { IfOk result (λ n. n ≡ ended (lane of.0 (actions (log_from records.now)))) }
    ensures bound { IfOk result (λ n. n ≤ length records.now) }
{
    let mut held = Vec::new(alloc);
    let mut sections = 0;
    for entry in records {
        if entry.lane == of && ends_section(&mut held, entry.record)? {
            sections += 1;
        }
    }
    Ok(sections)
}

// Whether the record leaves nothing held. The objects that the lane holds have the newest first.
fn ends_section(held: &mut Vec<ObjectId>, next: Record) -> Result<bool, AllocError>
    ensures ok { IfOk result (λ ends. (older : List Action) → numbers held.old.items ≡ holding older →
        (numbers held.new.items ≡ holding (action next ∷ older)) × (ended (action next ∷ older) ≡ (if ends then ended older + 1 else ended older))) }
{
    match next {
        Record::Acq { object, .. } => {
            held.insert(0, object)?;
            Ok(false)
        }
        Record::Rel { object, .. } | Record::WaitRel { object, .. } => {
            leave(held, object);
            Ok(held.is_empty())
        }
        Record::Put { .. } => Ok(false),
    }
}

fn leave(held: &mut Vec<ObjectId>, object: ObjectId)
    ensures { numbers held.new.items ≡ without object.0 (numbers held.old.items) }
{
    if let Some(place) = place_of(held, object) {
        held.remove(place);
    }
}

fn place_of(held: &[ObjectId], object: ObjectId) -> Option<usize>
    ensures { result ≡ position (λ h. h.0 == object.0) held.now }
{
    held.iter().position(|h| h.0 == object.0)
}
