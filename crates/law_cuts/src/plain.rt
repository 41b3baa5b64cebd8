//! The stable cut and the kept heap, found plainly.
//!
//! Both are slow: they are for tests, which compare faster bodies with them.

ghost use Rattle.std.specs.Prelude.{◌≡◌, ◌≢◌, ◌+◌, ◌<◌, ◌≤◌, ℕ, true, false, if◌then◌else◌, List, ◌∷◌, map, length, reverse, sum, slice_index, All, Contains, IfOk, OnOk, OnErr, MatchOption};
ghost use Rattle.std.specs.List.{list_any};
ghost use Rattle.heap_model.specs.Log.{lane, log_from};
ghost use Rattle.heap_model.specs.Sections.{action, actions, ended};
ghost use Rattle.heap_model.specs.Cuts.{counts_of, IsStable};
ghost use Rattle.heap_model.specs.KeptHeap.{kept_value};
ghost use Rattle.law_cuts.specs.Plain.{steps_log, HasSections, stored, reading, takes_after, counts, is_blocked_by, IsGreatest};

use crate::numbering::{ended_sections, numbered};
use crate::step::Step;
use heap_model::{Cut, Lane, LaneRecord, Record};
use std::alloc::{AllocError, Global};

/// The stable cut of the records, which have the oldest first: the greatest cut of whole sections that
/// depend on no section outside it.
///
/// Lanes are below 32. The time rises with the cube of the number of records.
pub fn stable_cut(alloc: Global, records: &[LaneRecord]) -> Result<Cut, AllocError>
    requires { All (λ e. e.lane.0 < 32) records.now }
    // A plain search finds the stable cut of any list of records of up to 32 lanes.
    ensures { IfOk result (λ cut. IsStable (actions (log_from records.now)) (counts_of cut)) }
{
    let steps = numbered(alloc, records)?;
    Ok(greatest_cut(&steps, whole_cut(alloc, records)?))
}

/// Replays the stores of the cut's sections over `heap`, which has the first value of each field. The
/// records have the oldest first. A store to a field that the heap doesn't have is left out.
pub fn replay(
    alloc: Global,
    heap: &mut [u64],
    records: &[LaneRecord],
    cut: &Cut,
) -> Result<(), AllocError>
    // A plain replay of the records gives the heap that the cut keeps.
    ensures ok { OnOk result ((f : ℕ) → f < length heap.old →
        slice_index heap.new f ≡ kept_value (λ g. slice_index heap.old g) (counts_of cut.now) f (log_from records.now)) }
    // After an error the heap is as it was.
    ensures err { OnErr result (heap.new ≡ heap.old) }
{
    let steps = numbered(alloc, records)?;
    replay_steps(heap, &steps, cut);
    Ok(())
}

// Replays the steps, which know their sections.
fn replay_steps(heap: &mut [u64], steps: &[Step], cut: &Cut)
    requires { HasSections (reverse steps.now) }
    ensures { (f : ℕ) → f < length heap.old →
        slice_index heap.new f ≡ kept_value (λ g. slice_index heap.old g) (counts_of cut.now) f (steps_log (reverse steps.now)) }
{
    for step in steps {
        replay_step(heap, *step, cut);
    }
}

// The value of a field after the step's record, if the cut has its section.
fn replay_step(heap: &mut [u64], step: Step, cut: &Cut)
    ensures { (f : ℕ) → f < length heap.old → slice_index heap.new f ≡
        stored (counts reading (counts_of cut.now) step) step.entry.record (λ g. slice_index heap.old g) f }
{
    if let Record::Put { field, after, .. } = step.entry.record {
        let place = field.0 as usize;
        if is_counted(cut, step) && place < heap.len() {
            heap[place] = after;
        }
    }
}

// The cut of all whole sections.
fn whole_cut(alloc: Global, records: &[LaneRecord]) -> Result<Cut, AllocError>
    ensures { IfOk result (λ cut. (l : ℕ) → l < 32 → counts_of cut l ≡ ended (lane l (actions (log_from records.now)))) }
{
    let mut cut = Cut { counts: [0; 32] };
    for l in 0..32u8 {
        cut.counts[l as usize] = ended_sections(alloc, records, Lane(l))?;
    }
    Ok(cut)
}

// The greatest cut below `whole` under which no step is blocked.
fn greatest_cut(steps: &[Step], whole: Cut) -> Cut
    ensures { IsGreatest reading steps.now (counts_of whole) (counts_of result) }
{
    let mut cut = whole;
    while let Some(step) = find_blocked(steps, &cut) {
        lower(&mut cut, step);
    }
    cut
}

fn find_blocked(steps: &[Step], cut: &Cut) -> Option<Step>
    ensures { MatchOption result
        (All (λ s. list_any (λ t. is_blocked_by reading (counts_of cut.now) s t) steps.now ≡ false) steps.now)
        (λ s. Contains steps.now s × (list_any (λ t. is_blocked_by reading (counts_of cut.now) s t) steps.now ≡ true)) }
{
    for step in steps {
        if is_blocked(steps, cut, *step) {
            return Some(*step);
        }
    }
    None
}

fn is_blocked(steps: &[Step], cut: &Cut, step: Step) -> bool
    ensures { result ≡ list_any (λ t. is_blocked_by reading (counts_of cut.now) step t) steps.now }
{
    steps.iter().any(|t| blocks(cut, step, *t))
}

fn blocks(cut: &Cut, step: Step, other: Step) -> bool
    ensures { result ≡ is_blocked_by reading (counts_of cut.now) step other }
{
    is_counted(cut, step)
        && takes_what_frees(step.entry.record, other.entry.record)
        && !is_counted(cut, other)
}

fn takes_what_frees(a: Record, b: Record) -> bool
    ensures { result ≡ takes_after (action a) (action b) }
{
    match (a, b) {
        (
            Record::Acq { object, number },
            Record::Rel {
                object: freed,
                number: at,
            }
            | Record::WaitRel {
                object: freed,
                number: at,
            },
        ) => object.0 == freed.0 && number > 0 && number - 1 == at,
        _ => false,
    }
}

fn is_counted(cut: &Cut, step: Step) -> bool
    ensures { result ≡ counts reading (counts_of cut.now) step }
{
    match cut.counts.get(step.entry.lane.0 as usize) {
        Some(count) => step.section <= *count,
        None => false,
    }
}

// Leaves the step's section out.
fn lower(cut: &mut Cut, step: Step)
    requires { step.section ≤ counts_of cut.old step.entry.lane.0 }
    ensures lowered { counts_of cut.new step.entry.lane.0 + 1 ≡ step.section }
    ensures others { (l : ℕ) → l ≢ step.entry.lane.0 → counts_of cut.new l ≡ counts_of cut.old l }
    ensures smaller { sum cut.new.counts < sum cut.old.counts }
{
    cut.counts[step.entry.lane.0 as usize] = step.section - 1;
}
