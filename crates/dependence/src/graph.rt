//! The graph of the sections.

ghost use Rattle.std.specs.Prelude.{◌≡◌, ◌+◌, ◌^◌, ◌*◌, ◌<◌, ◌≤◌, ◌==◌, ◌∷◌, [], ◌↔◌, if◌then◌else◌, ℕ, None, max, length, replicate, IfOk, IfSome, IsSome};
ghost use Rattle.heap_model.specs.Sections.{undo_action};
ghost use Rattle.heap_model.specs.Cuts.{counts_of, IsStable};
ghost use Rattle.heap_model.specs.Base.{since};
ghost use Rattle.dependence.specs.Trace.{base_of, sections_of, answered_of, growth, unanswered, beyond, section_since, IsStableOf};
ghost use Rattle.dependence.specs.Next.{IsNext, IsObjectBelow};
ghost use Rattle.dependence.specs.Reason.{IsLeftOut, IsReason};

use crate::found::{Found, at_hand};
use crate::lanes::{count, raise};
use crate::links::Links;
use crate::section::Dependence;
use crate::step::Step;
use crate::trimmed::retain;
use crate::why::reason_of;
use heap_model::{Cut, Lane, UndoRecord};
use std::alloc::{AllocError, Global};
use std::marker::Model;

/// The sections of a list of records, and what each depends on (Atlas, OOPSLA 2014).
///
/// A section depends on the earlier ones of its lane, and on each other one that freed a monitor which it
/// took next. Guards and values are left out. Contracts see a graph as what was forgotten, what was done
/// since, the newest first, the room that is left, and the cut that was last answered.
#[derive(Drop)]
pub struct Graph {
    lanes: u8,
    base: [u64; 32],
    ended: [u64; 32],
    held: [usize; 32],
    // Its spare capacity is the room.
    steps: Vec<Step>,
    links: Links,
    // The cut that was last answered, with what was forgotten since, and the number told of that answer.
    answered: Cut,
    looks: u64,
    // By lane: a dependence that keeps its first section beyond that cut out, if it is known.
    causes: [Option<Dependence>; 32],
    // The stable cut that was found last, where nothing was forgotten since. Its looks are those since the
    // last answer.
    stable: Option<Found>,
    // How many steps it was found among: it is at hand while there are no more. So a push leaves it alone.
    found_among: usize,
}

impl Model for Graph {
    ghost use Rattle.dependence.specs.Trace.{Trace, trace_code};

    ghost Value = { Trace };

    ghost coded = { trace_code };

    ghost use Rattle.dependence.specs.Inside.{trace_of, IsKept};

    ghost view = { trace_of };

    ghost invariant = { IsKept };
}

impl Graph {
    /// A graph of nothing, with room for so many records of so many lanes, which are at most 32.
    ///
    /// It takes all the memory that the graph will need: six words of eight bytes for each record, and one
    /// for each of 4,096 objects. No other call takes memory.
    pub fn with_capacity(alloc: Global, lanes: u8, records: usize) -> Result<Graph, AllocError>
        requires { lanes ≤ 32 }
        ensures lanes { IfOk result (λ g. g.lanes ≡ lanes) }
        ensures base { IfOk result (λ g. (l : ℕ) → base_of g l ≡ 0) }
        ensures empty { IfOk result (λ g. g.log ≡ []) }
        ensures room { IfOk result (λ g. g.room ≡ records) }
        ensures answered { IfOk result (λ g. (l : ℕ) → answered_of g l ≡ 0) }
        ensures looks { IfOk result (λ g. g.looks ≡ 0) }
    {
        Ok(Graph {
            lanes,
            base: [0; 32],
            ended: [0; 32],
            held: [0; 32],
            steps: Vec::with_capacity(alloc, records)?,
            links: Links::with_capacity(alloc, records)?,
            answered: Cut { counts: [0; 32] },
            looks: 0,
            causes: [None; 32],
            stable: None,
            found_among: 0,
        })
    }

    /// Adds a lane's next record. Objects are numbered below 4,096.
    ///
    /// An object's numbers may begin anywhere and rise with each take; a release is by the lane that holds
    /// the object. A record that a legal list allows next is such ([`allowed_law`](crate::allowed_law)). A
    /// take whose release isn't in the graph depends on none. [`room`](Self::room) and
    /// [`lanes`](Self::lanes) tell what is asked of the numbers. The time is constant.
    #[inline(always)]
    pub fn push(&mut self, lane: Lane, entry: &UndoRecord)
        requires room { 0 < self.old.room }
        requires lane { lane.0 < self.old.lanes }
        requires object { IsObjectBelow 4096 entry.now }
        requires next { IsNext self.old.log lane.0 (undo_action entry.now) }
        requires fits { sections_of self.old lane.0 + 1 < 2 ^ 64 }
        ensures log { self.new.log ≡ (lane.0, undo_action entry.now) ∷ self.old.log }
        ensures room { self.new.room + 1 ≡ self.old.room }
        ensures base { self.new.base ≡ self.old.base }
        ensures lanes { self.new.lanes ≡ self.old.lanes }
        ensures answered { self.new.answered ≡ self.old.answered }
        ensures looks { self.new.looks ≡ self.old.looks }
    {
        let next = Step {
            lane,
            section: self.ended[lane.0 as usize] + 1,
            entry: *entry,
        };
        count(&mut self.ended, &mut self.held, next);
        self.links.add(&self.steps, next);
        self.steps.push_reserved(next);
    }

    /// Leaves out what the cut counts, which is at most the stable one. It may be a part of what depends
    /// on one another: the rest stays in the stable cut. Sections and cuts go on counting it, and no later
    /// answer changes by it. Where the cut counts less than was forgotten already, that stays forgotten.
    /// The room of what is forgotten is free again. What is forgotten counts as answered.
    ///
    /// The time is linear in the records that were not forgotten before.
    pub fn forget_to(&mut self, cut: &Cut)
        requires at_most { (c : ℕ → ℕ) → IsStable self.old.log c → (l : ℕ) → beyond self.old cut.now l ≤ c l }
        // Any part of the stable cut may be forgotten, closed or not. What lies beyond it stays.
        ensures log { self.new.log ≡ since (beyond self.old cut.now) self.old.log }
        // The base rises, lane by lane, to what was forgotten.
        ensures base { (l : ℕ) → base_of self.new l ≡ max (base_of self.old l) (counts_of cut.now l) }
        // Forgetting frees the room of what is forgotten.
        ensures room { self.new.room + length self.new.log ≡ self.old.room + length self.old.log }
        ensures lanes { self.new.lanes ≡ self.old.lanes }
        ensures answered { (l : ℕ) → answered_of self.new l ≡ max (answered_of self.old l) (counts_of cut.now l) }
        ensures looks { self.new.looks ≡ self.old.looks }
        // Forgetting changes no stable cut.
        ensures answers { (c : ℕ → ℕ) → IsStableOf self.new c ↔ IsStableOf self.old c }
    {
        raise(&mut self.base, &cut.counts);
        raise(&mut self.answered.counts, &cut.counts);
        retain(&mut self.steps, &self.links, &self.base, self.lanes);
        self.links.again(&self.steps);
        self.causes = [None; 32];
        self.stable = None;
        self.found_among = 0;
    }

    /// The stable cut of all records, what was forgotten included.
    ///
    /// A section that is left out keeps a dependence that keeps it out, by lane. Where that one is still
    /// out, the lane's sections are not taken up: so with a section open all the time the answer takes as
    /// long as what is new. Where no lane is kept out so, only what is left out is taken up. The time is
    /// linear in the records of the sections that are taken up, in whatever order they depend on one
    /// another, and in those of the sections that are open; after each record the lanes are looked through
    /// at most once. Where nothing was pushed or forgotten
    /// since the last call, the answer is at hand.
    pub fn stable_cut(&mut self) -> Cut
        // The stable cut is the greatest whole, closed cut, with what was forgotten counted.
        ensures stable { IsStableOf self.old (counts_of result) }
        ensures answered { (l : ℕ) → answered_of self.new l ≡ counts_of result l }
        // A search decides on at least as many sections as the cut grew by.
        ensures looks_least { growth self.old.lanes (counts_of result) (answered_of self.old) ≤ self.new.looks }
        // A search decides at most m * (m + 1) times, with m whole sections beyond what was answered or forgotten
        // before.
        ensures looks_most { self.new.looks ≤ unanswered self.old * (unanswered self.old + 1) }
        // A search for the stable cut changes nothing of the log.
        ensures log { self.new.log ≡ self.old.log }
        ensures base { self.new.base ≡ self.old.base }
        ensures lanes { self.new.lanes ≡ self.old.lanes }
        ensures room { self.new.room ≡ self.old.room }
    {
        let found = at_hand(
            self.lanes,
            &self.steps,
            &self.links,
            &self.ended,
            &self.answered,
            &mut self.causes,
            still(self.stable, self.found_among, self.steps.len()),
        );
        self.answered = found.cut;
        self.looks = found.looks;
        // A cut that is at hand takes no look.
        self.stable = Some(Found {
            cut: found.cut,
            looks: 0,
        });
        self.found_among = self.steps.len();
        found.cut
    }

    /// How many sections the last [`stable_cut`](Self::stable_cut) decided on, or a [`reason`](Self::reason)
    /// since the answer before: at most so many were taken up with their dependences. One that is left out
    /// counts twice. 0 before
    /// the first.
    pub fn last_looks(&self) -> u64
        // The answer is the number of sections on which the last search for the stable cut decided.
        ensures { result ≡ self.now.looks }
    {
        self.looks
    }

    /// How many sections of the lane have ended, what was forgotten included.
    #[inline(always)]
    pub fn sections(&self, lane: Lane) -> u64
        requires { lane.0 < self.now.lanes }
        ensures { result ≡ sections_of self.now lane.0 }
    {
        self.ended[lane.0 as usize]
    }

    /// For how many more records there is room.
    pub fn room(&self) -> usize
        ensures { result ≡ self.now.room }
    {
        self.steps.capacity() - self.steps.len()
    }

    /// How many lanes there are, numbered from 0.
    pub fn lanes(&self) -> u8
        ensures { result ≡ self.now.lanes }
    {
        self.lanes
    }

    /// Why a whole section is not in the stable cut: the first of its dependences that is not in it
    /// either, its lane's previous section or else the releasers in the order of its acquire records.
    ///
    /// `None` if the section is in the cut, or is not whole. The time is that of
    /// [`stable_cut`](Self::stable_cut); and only for the first section of a lane that is not in the cut,
    /// one pass over the records that are not forgotten.
    pub fn reason(&mut self, lane: Lane, section: u64) -> Option<Dependence>
        // A reason is given exactly for a whole section that the stable cut leaves out.
        ensures some { (cut : ℕ → ℕ) → IsStable self.old.log cut → (IsSome result ↔ IsLeftOut self.old.log cut (section_since self.old lane.0 section)) }
        // The reason is the first of the section's dependences that the stable cut leaves out.
        ensures first { (cut : ℕ → ℕ) → IsStable self.old.log cut → IfSome result (λ d. IsReason self.old.log cut (section_since self.old lane.0 section) (section_since self.old d.lane.0 d.section)) }
        ensures kept { IfSome result (λ d. base_of self.old d.lane.0 < d.section) }
        ensures same { self.new ≡ self.old }
    {
        let mut causes = self.causes;
        let found = at_hand(
            self.lanes,
            &self.steps,
            &self.links,
            &self.ended,
            &self.answered,
            &mut causes,
            still(self.stable, self.found_among, self.steps.len()),
        );
        self.stable = Some(found);
        self.found_among = self.steps.len();
        reason_of(
            &self.steps,
            &self.links,
            &self.ended,
            &found.cut,
            Dependence { lane, section },
        )
    }
}

// The cut, if no step was added to those that it was found among.
fn still(stable: Option<Found>, found_among: usize, steps: usize) -> Option<Found>
    ensures { result ≡ (if found_among == steps then stable else None) }
{
    if found_among == steps { stable } else { None }
}
