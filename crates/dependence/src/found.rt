//! The stable cut as a search found it.

ghost use Rattle.std.specs.Prelude.{◌≡◌, ◌+◌, ◌^◌, ◌<◌, ◌≤◌, ℕ, MatchOption, length, slice_index};
ghost use Rattle.heap_model.specs.Cuts.{counts_of};
ghost use Rattle.law_cuts.specs.Plain.{IsClosedOver};
ghost use Rattle.dependence.specs.Trace.{growth};
ghost use Rattle.dependence.specs.Steps.{reading};
ghost use Rattle.dependence.specs.Kept.{IsLinked};
ghost use Rattle.dependence.specs.Search.{IsSorted, IsFound, AreCauses};

use crate::candidates::candidates;
use crate::links::Links;
use crate::search::greatest_cut;
use crate::section::Dependence;
use crate::step::Step;
use heap_model::Cut;

/// The stable cut, and the number that is told of the sections on which it decided.
#[derive(Clone, Copy)]
pub struct Found {
    pub cut: Cut,
    pub looks: u64,
}

/// The stable cut of the steps: the one that is at hand, or else the one that a search finds.
pub fn at_hand(
    lanes: u8,
    steps: &[Step],
    links: &Links,
    ended: &[u64; 32],
    answered: &Cut,
    causes: &mut [Option<Dependence>; 32],
    stable: Option<Found>,
) -> Found
    requires lanes { lanes ≤ 32 }
    requires linked { IsLinked steps.now links.now }
    requires sorted { IsSorted steps.now lanes }
    requires whole { (l : ℕ) → counts_of answered.now l ≤ slice_index ended.now l }
    requires closed { IsClosedOver reading steps.now (counts_of answered.now) }
    requires causes { AreCauses steps.now (counts_of answered.now) causes.old }
    requires fits { growth lanes (slice_index ended.now) (counts_of answered.now) < 2 ^ 63 }
    requires stable { MatchOption stable (Unit {0}) (λ found. IsFound lanes steps.now (slice_index ended.now) (counts_of answered.now) (counts_of found.cut) found.looks) }
    ensures found { IsFound lanes steps.now (slice_index ended.now) (counts_of answered.now) (counts_of result.cut) result.looks }
    ensures causes { AreCauses steps.now (counts_of result.cut) causes.new }
{
    match stable {
        Some(found) => found,
        None => find(lanes, steps, links, ended, answered, causes),
    }
}

/// The stable cut of the steps, beyond the one that was answered before.
///
/// Where all sections that have ended are candidates, what is outside alone is taken up. Else each candidate is taken up once
/// with its dependences, and those that are out once more: so that one which is in is taken up once, and a section
/// whose cause is out isn't taken up. The number told is that of the candidates, with those that are out once more, whichever
/// of them were taken up.
pub fn find(
    lanes: u8,
    steps: &[Step],
    links: &Links,
    ended: &[u64; 32],
    answered: &Cut,
    causes: &mut [Option<Dependence>; 32],
) -> Found
    requires lanes { lanes ≤ 32 }
    requires linked { IsLinked steps.now links.now }
    requires sorted { IsSorted steps.now lanes }
    requires whole { (l : ℕ) → counts_of answered.now l ≤ slice_index ended.now l }
    requires closed { IsClosedOver reading steps.now (counts_of answered.now) }
    requires causes { AreCauses steps.now (counts_of answered.now) causes.old }
    requires fits { growth lanes (slice_index ended.now) (counts_of answered.now) < 2 ^ 63 }
    ensures found { IsFound lanes steps.now (slice_index ended.now) (counts_of answered.now) (counts_of result.cut) result.looks }
    ensures causes { AreCauses steps.now (counts_of result.cut) causes.new }
{
    let candidates = candidates(lanes, ended, answered, causes);
    let are_all = candidates.counts == *ended;
    let search = greatest_cut(lanes, steps, links, answered, &candidates, *causes, are_all);
    *causes = search.causes;
    let taken_up = sections_beyond(lanes, &candidates.counts, &answered.counts);
    let left_out = sections_beyond(lanes, &candidates.counts, &search.cut.counts);
    Found {
        cut: search.cut,
        looks: taken_up + left_out,
    }
}

/// How many sections of the lanes the first counts have beyond the others.
pub fn sections_beyond(lanes: u8, cut: &[u64; 32], before: &[u64; 32]) -> u64
    requires lanes { lanes ≤ 32 }
    requires whole { (l : ℕ) → slice_index before.now l ≤ slice_index cut.now l }
    requires fits { growth lanes (slice_index cut.now) (slice_index before.now) < 2 ^ 64 }
    ensures { result ≡ growth lanes (slice_index cut.now) (slice_index before.now) }
{
    let mut sections = 0;
    for lane in 0..lanes as usize {
        sections += cut[lane] - before[lane];
    }
    sections
}
