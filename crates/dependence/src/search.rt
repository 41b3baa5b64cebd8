//! The search for the stable cut.

ghost use Rattle.std.specs.Prelude.{◌≡◌, ◌≢◌, ◌+◌, ◌-◌, ◌<◌, ◌≤◌, ◌↔◌, ℕ, List, true, false, IsTrue, MatchOption, length, slice_index, get_or, sum};
ghost use Rattle.heap_model.specs.Sections.{undo_action};
ghost use Rattle.heap_model.specs.Cuts.{counts_of};
ghost use Rattle.law_cuts.specs.Plain.{IsClosedOver, takes_after};
ghost use Rattle.dependence.specs.declared.step.Step.{Step as AnyStep};
ghost use Rattle.dependence.specs.Steps.{reading};
ghost use Rattle.dependence.specs.Links.{acts_in, act_at};
ghost use Rattle.dependence.specs.Kept.{IsLinked};
ghost use Rattle.dependence.specs.Search.{IsAbove, TookFrom, AreCauses, IsStart, IsLooking, IsSearch, IsLeft, IsSorted, KeepsLooking, KeepsSearching};

use crate::links::Links;
use crate::section::Dependence;
use crate::step::Step;
use crate::steps::takes_what_frees;
use crate::why::release_of;
use heap_model::Cut;

/// A cut that falls to the stable one.
#[derive(Drop)]
pub struct Search {
    pub cut: Cut,
    /// By lane: a dependence that keeps its first section beyond the cut out.
    pub causes: [Option<Dependence>; 32],
    /// By lane: the place of the newest step that was not taken up yet, plus 1, or 0.
    pub left: [usize; 32],
}

/// The greatest cut of the candidates that is closed, above one that is closed.
///
/// `are_all` says that all sections that have ended are candidates. Then those outside are the open ones, which are few: what
/// they freed says who is out with them, and no other is taken up. The answer is the same without it.
pub fn greatest_cut(
    lanes: u8,
    steps: &[Step],
    links: &Links,
    answered: &Cut,
    candidates: &Cut,
    causes: [Option<Dependence>; 32],
    are_all: bool,
) -> Search
    requires lanes { lanes ≤ 32 }
    requires linked { IsLinked steps.now links.now }
    requires sorted { IsSorted steps.now lanes }
    requires closed { IsClosedOver reading steps.now (counts_of answered.now) }
    requires less { (l : ℕ) → counts_of answered.now l ≤ counts_of candidates.now l }
    requires causes { AreCauses steps.now (counts_of answered.now) causes }
    ensures above { IsAbove steps.now (counts_of candidates.now) (counts_of result.cut) }
    ensures closed { IsClosedOver reading steps.now (counts_of result.cut) }
    ensures causes { AreCauses steps.now (counts_of result.cut) result.causes }
{
    if are_all {
        look_outside(lanes, steps, links, answered, candidates, causes)
    } else {
        look_back(lanes, steps, links, answered, candidates, causes)
    }
}

// A section that is out takes with it the later ones of its lane, and the sections that took what it freed. So each step that is
// out is taken up, from the end of its lane: where it is a release, the section of the take after it is out too.
fn look_outside(
    lanes: u8,
    steps: &[Step],
    links: &Links,
    answered: &Cut,
    candidates: &Cut,
    causes: [Option<Dependence>; 32],
) -> Search
    requires lanes { lanes ≤ 32 }
    requires linked { IsLinked steps.now links.now }
    requires sorted { IsSorted steps.now lanes }
    requires closed { IsClosedOver reading steps.now (counts_of answered.now) }
    requires less { (l : ℕ) → counts_of answered.now l ≤ counts_of candidates.now l }
    requires causes { AreCauses steps.now (counts_of answered.now) causes }
    ensures above { IsAbove steps.now (counts_of candidates.now) (counts_of result.cut) }
    ensures closed { IsClosedOver reading steps.now (counts_of result.cut) }
    ensures causes { AreCauses steps.now (counts_of result.cut) result.causes }
{
    let _answered = answered;
    let mut search = Search {
        cut: *candidates,
        causes,
        left: links.newest,
    };
    leave_out_all(lanes, steps, links, candidates, &mut search, &links.newest);
    search
}

// First each candidate is taken up with its dependences: what depends on a section that is no candidate is out. Then each
// candidate that is out is taken up once more, as in `look_outside`: so the sections of a lane that has no candidates aren't.
fn look_back(
    lanes: u8,
    steps: &[Step],
    links: &Links,
    answered: &Cut,
    candidates: &Cut,
    causes: [Option<Dependence>; 32],
) -> Search
    requires lanes { lanes ≤ 32 }
    requires linked { IsLinked steps.now links.now }
    requires sorted { IsSorted steps.now lanes }
    requires closed { IsClosedOver reading steps.now (counts_of answered.now) }
    requires less { (l : ℕ) → counts_of answered.now l ≤ counts_of candidates.now l }
    requires causes { AreCauses steps.now (counts_of answered.now) causes }
    ensures above { IsAbove steps.now (counts_of candidates.now) (counts_of result.cut) }
    ensures closed { IsClosedOver reading steps.now (counts_of result.cut) }
    ensures causes { AreCauses steps.now (counts_of result.cut) result.causes }
{
    let start = starts(links, answered, candidates);
    let mut search = Search {
        cut: *candidates,
        causes,
        left: start,
    };
    look_through(
        lanes,
        steps,
        links,
        answered,
        candidates,
        &mut search,
        &start,
    );
    search.left = start;
    leave_out_all(lanes, steps, links, candidates, &mut search, &start);
    search
}

// By lane where its steps begin: at the newest, or nowhere if there are no candidates.
fn starts(links: &Links, answered: &Cut, candidates: &Cut) -> [usize; 32]
    requires { length links.now.newest ≡ 32 }
    ensures { IsStart links.now.newest (counts_of answered.now) (counts_of candidates.now) result }
{
    let mut start = links.newest;
    for lane in 0..32 {
        if candidates.counts[lane] <= answered.counts[lane] {
            start[lane] = 0;
        }
    }
    start
}

// Takes up the candidates with their dependences, back to what was answered.
fn look_through(
    lanes: u8,
    steps: &[Step],
    links: &Links,
    answered: &Cut,
    candidates: &Cut,
    search: &mut Search,
    start: &[usize; 32],
)
    requires linked { IsLinked steps.now links.now }
    requires search { IsLooking steps.now start.now search.old.left (counts_of candidates.now) (counts_of search.old.cut) search.old.causes }
    ensures search { IsLooking steps.now start.now search.new.left (counts_of candidates.now) (counts_of search.new.cut) search.new.causes }
    ensures done { (l : ℕ) → l < lanes → ¬ IsLeft steps.now search.new.left (counts_of answered.now) l }
{
    let mut lane = 0;
    while let Some(next) = lane_to_take_up(lanes, steps, &search.left, answered, lane) {
        lane = next;
        look_at(steps, links, candidates, search, lane);
    }
}

// Takes up the sections that are out, and leaves out what depends on them.
fn leave_out_all(
    lanes: u8,
    steps: &[Step],
    links: &Links,
    candidates: &Cut,
    search: &mut Search,
    start: &[usize; 32],
)
    requires linked { IsLinked steps.now links.now }
    requires search { IsSearch steps.now start.now search.old.left (counts_of candidates.now) (counts_of search.old.cut) search.old.causes }
    ensures search { IsSearch steps.now start.now search.new.left (counts_of candidates.now) (counts_of search.new.cut) search.new.causes }
    ensures done { (l : ℕ) → l < lanes → ¬ IsLeft steps.now search.new.left (counts_of search.new.cut) l }
{
    let mut lane = 0;
    while let Some(next) = lane_to_take_up(lanes, steps, &search.left, &search.cut, lane) {
        lane = next;
        take_up(steps, links, search, lane);
    }
}

// A lane whose newest step that is left is of a section beyond the cut; the given one, if that is such.
fn lane_to_take_up(
    lanes: u8,
    steps: &[Step],
    left: &[usize; 32],
    cut: &Cut,
    first: usize,
) -> Option<usize>
    ensures { MatchOption result ((l : ℕ) → l < lanes → ¬ IsLeft steps.now left.now (counts_of cut.now) l) (λ l. IsLeft steps.now left.now (counts_of cut.now) l) }
{
    if is_left(steps, left, cut, first) {
        return Some(first);
    }
    for lane in 0..lanes as usize {
        if is_left(steps, left, cut, lane) {
            return Some(lane);
        }
    }
    None
}

fn is_left(steps: &[Step], left: &[usize; 32], cut: &Cut, lane: usize) -> bool
    ensures { IsTrue result ↔ IsLeft steps.now left.now (counts_of cut.now) lane }
{
    lane < 32
        && left[lane] > 0
        && left[lane] <= steps.len()
        && cut.counts[lane] < steps[left[lane] - 1].section
}

// Takes up the newest step that is left of the lane: what it took of a section that is no candidate leaves its own out.
fn look_at(steps: &[Step], links: &Links, candidates: &Cut, search: &mut Search, lane: usize)
    requires linked { IsLinked steps.now links.now }
    requires left { (cut : ℕ → ℕ) × IsLeft steps.now search.old.left cut lane }
    ensures search { KeepsLooking steps.now (counts_of candidates.now) search.old.left search.new.left
        (counts_of search.old.cut) (counts_of search.new.cut) search.old.causes search.new.causes }
    ensures smaller { sum search.new.left < sum search.old.left }
{
    let place = search.left[lane] - 1;
    search.left[lane] = links.before(place);
    if let Some(release) = release_of(steps, links, place) {
        let releaser = steps[release];
        if !is_counted(candidates, releaser) {
            leave_out(&mut search.cut, &mut search.causes, steps[place], releaser);
        }
    }
}

// Takes up the newest step that is left of the lane: what took what it freed is out.
fn take_up(steps: &[Step], links: &Links, search: &mut Search, lane: usize)
    requires linked { IsLinked steps.now links.now }
    requires left { IsLeft steps.now search.old.left (counts_of search.old.cut) lane }
    ensures search { KeepsSearching steps.now search.old.left search.new.left (counts_of search.old.cut)
        (counts_of search.new.cut) search.old.causes search.new.causes }
    ensures smaller { sum search.new.left < sum search.old.left }
{
    let place = search.left[lane] - 1;
    search.left[lane] = links.before(place);
    if let Some(taker) = taker_of(steps, links, place) {
        leave_out(&mut search.cut, &mut search.causes, taker, steps[place]);
    }
}

// The step that took what the step at the place freed.
fn taker_of(steps: &[Step], links: &Links, place: usize) -> Option<Step>
    requires linked { IsLinked steps.now links.now }
    requires there { place < length steps.now }
    ensures { MatchOption result ((j : ℕ) → takes_after (act_at (acts_in steps.now) j) (act_at (acts_in steps.now) place) ≡ false)
        (λ t. (j : ℕ) × (j < length steps.now) × (t ≡ get_or steps.now j t) × (takes_after (act_at (acts_in steps.now) j) (act_at (acts_in steps.now) place) ≡ true)) }
{
    let partner = links.partner(place);
    if partner > 0
        && partner <= steps.len()
        && takes_what_frees(steps[partner - 1].entry, steps[place].entry)
    {
        Some(steps[partner - 1])
    } else {
        None
    }
}

/// Whether the step's section is one of the cut's.
pub fn is_counted(cut: &Cut, step: Step) -> bool
    ensures { IsTrue result ↔ step.section ≤ counts_of cut.now step.lane.0 }
{
    match cut.counts.get(step.lane.0 as usize) {
        Some(count) => step.section <= *count,
        None => false,
    }
}

// Lowers the cut below the step's section, which took what the releaser freed.
fn leave_out(cut: &mut Cut, causes: &mut [Option<Dependence>; 32], step: Step, releaser: Step)
    ensures out { counts_of cut.new step.lane.0 < step.section }
    ensures others { (l : ℕ) → l ≢ step.lane.0 → counts_of cut.new l ≡ counts_of cut.old l }
    ensures fewer { counts_of cut.new step.lane.0 ≤ counts_of cut.old step.lane.0 }
    ensures least { (n : ℕ) → n < step.section → n ≤ counts_of cut.old step.lane.0 → n ≤ counts_of cut.new step.lane.0 }
    ensures causes { (steps : List AnyStep) → TookFrom steps step releaser → AreCauses steps (counts_of cut.old) causes.old → AreCauses steps (counts_of cut.new) causes.new }
{
    let lane = step.lane.0 as usize;
    if lane < 32 && step.section <= cut.counts[lane] {
        cut.counts[lane] = step.section - 1;
        causes[lane] = Some(Dependence {
            lane: releaser.lane,
            section: releaser.section,
        });
    }
}
