//! Where a step's neighbours are.

ghost use Rattle.std.specs.Prelude.{◌≡◌, ◌+◌, ◌-◌, ◌<◌, ◌≤◌, ◌==◌, ◌∷◌, [], ◌++◌, if◌then◌else◌, ◌^◌, ℕ, length, reverse, replicate, vec_len, vec_capacity, IfOk, slice_index, slice_set};
ghost use Rattle.heap_model.specs.Sections.{undo_action};
ghost use Rattle.dependence.specs.Links.{checked_release, object_of, with_release, freed_after, acts_in, before_in, partner_in};

use crate::neighbours::Neighbours;
use crate::step::Step;
use crate::steps::takes_what_frees;
use heap_model::{MOST_OBJECTS, ObjectId, UndoRecord};
use std::alloc::{AllocError, Global};

/// The places of the steps next to each step: before it in its lane, and on the other side of a monitor
/// that changed hands. A place is kept as one more than the step's index, and 0 says that there is none.
#[derive(Drop)]
pub struct Links {
    /// By lane: its newest step.
    pub newest: [usize; 32],
    /// By object: its last release.
    pub freed: Vec<usize>,
    /// By step: the steps next to it.
    pub beside: Vec<Neighbours>,
}

impl Links {
    ghost use Rattle.std.specs.Prelude.{◌≡◌, ◌+◌, ◌<◌, ◌≤◌, ◌∷◌, [], ◌++◌, ℕ, All, reverse, length, slice_index, IfOk, vec_len, vec_capacity};
    ghost use Rattle.heap_model.specs.Sections.{undo_action};
    ghost use Rattle.dependence.specs.Next.{IsObjectBelow};
    ghost use Rattle.dependence.specs.Steps.{log_of};
    ghost use Rattle.dependence.specs.Links.{before_in, partner_in};
    ghost use Rattle.dependence.specs.Kept.{IsInOrder, IsLinked, HasRoom, Rises};

    /// The links of no steps, with room for so many.
    pub fn with_capacity(alloc: Global, records: usize) -> Result<Links, AllocError>
        ensures linked { IfOk result (λ k. IsLinked [] k) }
        ensures room { IfOk result (λ k. HasRoom k records) }
    {
        Ok(Links {
            newest: [0; 32],
            freed: vec![in alloc; 0; MOST_OBJECTS]?,
            beside: Vec::with_capacity(alloc, records)?,
        })
    }

    /// Links the step that comes after these.
    #[inline(always)]
    pub fn add(&mut self, steps: &[Step], next: Step)
        requires linked { IsLinked steps.now self.old }
        requires room { HasRoom self.old 1 }
        requires lane { next.lane.0 < 32 }
        requires object { IsObjectBelow 4096 next.entry }
        requires order { IsInOrder (log_of (reverse steps.now)) (undo_action next.entry) }
        ensures linked { IsLinked (steps.now ++ next ∷ []) self.new }
        ensures room { (n : ℕ) → HasRoom self.old (n + 1) → HasRoom self.new n }
        ensures capacity { vec_capacity self.new.beside ≡ vec_capacity self.old.beside }
    {
        let before = chain(&mut self.newest, next.lane.0 as usize, steps.len());
        let partner = last_release(&self.freed, steps, next);
        pair(&mut self.beside, partner, steps.len());
        self.beside.push_reserved(Neighbours { before, partner });
        note_release(&mut self.freed, next.entry, steps.len());
    }

    /// Links the steps anew.
    ///
    /// What was noted of objects stays: a release counts only where a step at its place frees what is taken.
    pub fn again(&mut self, steps: &[Step])
        requires objects { length self.old.freed.items ≡ 4096 }
        requires room { length steps.now ≤ vec_capacity self.old.beside }
        requires lanes { All (λ s. s.lane.0 < 32) steps.now }
        requires order { Rises (log_of (reverse steps.now)) }
        requires named { All (λ s. IsObjectBelow 4096 s.entry) steps.now }
        ensures linked { IsLinked steps.now self.new }
        ensures capacity { vec_capacity self.new.beside ≡ vec_capacity self.old.beside }
    {
        self.newest = [0; 32];
        self.beside.clear();
        for (place, step) in steps.iter().enumerate() {
            self.add(&steps[..place], *step);
        }
    }

    /// The place of the step before this one in its lane.
    #[inline(always)]
    pub fn before(&self, place: usize) -> usize
        requires { place < length self.now.beside.items }
        ensures { result ≡ slice_index (before_in self.now.beside.items) place }
    {
        self.beside[place].before
    }

    /// The place of the step's partner: of a take the release before it, of a release the take after it.
    #[inline(always)]
    pub fn partner(&self, place: usize) -> usize
        requires { place < length self.now.beside.items }
        ensures { result ≡ slice_index (partner_in self.now.beside.items) place }
    {
        self.beside[place].partner
    }
}

// Puts the lane's next step at the end of its chain, and gives the place of the one before it.
#[inline(always)]
fn chain(newest: &mut [usize], lane: usize, place: usize) -> usize
    requires lane { lane < length newest.old }
    requires fits { place + 1 < 2 ^ 64 }
    ensures newest { newest.new ≡ slice_set newest.old lane (place + 1) }
    ensures before { result ≡ slice_index newest.old lane }
{
    let before = newest[lane];
    newest[lane] = place + 1;
    before
}

// The place of the release that freed what the step takes, plus 1, or 0.
#[inline(always)]
fn last_release(freed: &[usize], steps: &[Step], next: Step) -> usize
    requires object { object_of (undo_action next.entry) < length freed.now }
    ensures { result ≡ checked_release (acts_in steps.now) (undo_action next.entry) (slice_index freed.now (object_of (undo_action next.entry))) }
{
    match next.entry {
        UndoRecord::Acq { object, .. } => if_freed(steps, next, freed[object.0 as usize]),
        _ => 0,
    }
}

// The release, if it is there and frees what the step takes.
#[inline(always)]
fn if_freed(steps: &[Step], next: Step, release: usize) -> usize
    ensures { result ≡ checked_release (acts_in steps.now) (undo_action next.entry) release }
{
    if release > 0 && release <= steps.len() {
        if takes_what_frees(next.entry, steps[release - 1].entry) {
            return release;
        }
    }
    0
}

// If there is a release, it gets the step at the place as its partner.
#[inline(always)]
fn pair(beside: &mut [Neighbours], release: usize, place: usize)
    requires release { release ≤ length beside.old }
    requires fits { place + 1 < 2 ^ 64 }
    ensures before { before_in beside.new ≡ before_in beside.old }
    ensures partner { partner_in beside.new ≡ with_release (partner_in beside.old) release (place + 1) }
{
    if release > 0 {
        beside[release - 1].partner = place + 1;
    }
}

// Notes the place of an object's last release.
#[inline(always)]
fn note_release(freed: &mut [usize], entry: UndoRecord, place: usize)
    requires object { object_of (undo_action entry) < length freed.old }
    requires fits { place + 1 < 2 ^ 64 }
    ensures { freed.new ≡ freed_after freed.old (undo_action entry) place }
{
    if let UndoRecord::Rel { object, .. } | UndoRecord::WaitRel { object, .. } = entry {
        freed[object.0 as usize] = place + 1;
    }
}
