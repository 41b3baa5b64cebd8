//! Why a section is left out of a cut.

ghost use Rattle.std.specs.Prelude.{◌≡◌, ◌+◌, ◌<◌, ℕ, true, MatchOption, length, slice_index};
ghost use Rattle.heap_model.specs.Cuts.{counts_of};
ghost use Rattle.dependence.specs.Kept.{IsLinked};
ghost use Rattle.dependence.specs.Search.{Takes, IsOwnOrInside, IsOnOutside, TookInsideAt, TookInsideUpTo, TookOutside, IsFirstReleaser, IsLeftOutBy, HasNoReason};

use crate::lanes::is_left_out;
use crate::links::Links;
use crate::search::is_counted;
use crate::section::Dependence;
use crate::step::Step;
use crate::steps::takes_what_frees;
use heap_model::{Cut, Lane};

/// The first dependence of the section that is outside the cut: its lane's previous section, or else
/// the releasers in the order of its takes. `None` if the section is in the cut or has not ended.
pub fn reason_of(
    steps: &[Step],
    links: &Links,
    ended: &[u64],
    cut: &Cut,
    section: Dependence,
) -> Option<Dependence>
    requires linked { IsLinked steps.now links.now }
    requires lanes { length ended.now ≡ 32 }
    ensures { MatchOption result (HasNoReason steps.now (slice_index ended.now) (counts_of cut.now) section.lane.0 section.section)
        (λ d. IsLeftOutBy steps.now (slice_index ended.now) (counts_of cut.now) section.lane.0 section.section d.lane.0 d.section) }
{
    if !is_left_out(cut, ended, section.lane, section.section) {
        return None;
    }
    let previous = section.section - 1;
    if is_left_out(cut, ended, section.lane, previous) {
        return Some(Dependence {
            lane: section.lane,
            section: previous,
        });
    }
    first_releaser(steps, links, cut, section)
}

// The releaser of the section's first take whose releaser is another section outside the cut.
fn first_releaser(
    steps: &[Step],
    links: &Links,
    cut: &Cut,
    section: Dependence,
) -> Option<Dependence>
    requires { IsLinked steps.now links.now }
    ensures { MatchOption result (TookInsideUpTo steps.now (counts_of cut.now) section.lane.0 section.section (length steps.now))
        (λ d. IsFirstReleaser steps.now (counts_of cut.now) section.lane.0 section.section d.lane.0 d.section) }
{
    for place in 0..steps.len() {
        if let Some(releaser) = releaser_outside(steps, links, cut, section, place) {
            return Some(releaser);
        }
    }
    None
}

// The section that freed what the given one took at the place, if it is another one outside the cut.
fn releaser_outside(
    steps: &[Step],
    links: &Links,
    cut: &Cut,
    section: Dependence,
    place: usize,
) -> Option<Dependence>
    requires linked { IsLinked steps.now links.now }
    requires there { place < length steps.now }
    ensures { MatchOption result (TookInsideAt steps.now (counts_of cut.now) section.lane.0 section.section place)
        (λ d. TookOutside steps.now (counts_of cut.now) section.lane.0 section.section place d.lane.0 d.section) }
{
    let taker = steps[place];
    if taker.lane.0 != section.lane.0 || taker.section != section.section {
        return None;
    }
    match release_of(steps, links, place) {
        Some(release) => outside(cut, steps[release], section),
        None => None,
    }
}

/// The place of the release that freed what the step at the place took.
pub fn release_of(steps: &[Step], links: &Links, place: usize) -> Option<usize>
    requires linked { IsLinked steps.now links.now }
    requires there { place < length steps.now }
    ensures { MatchOption result ((j : ℕ) → Takes steps.now place j → ⊥) (λ j. (j < length steps.now) × Takes steps.now place j) }
{
    let partner = links.partner(place);
    if partner > 0 && partner <= steps.len() {
        if takes_what_frees(steps[place].entry, steps[partner - 1].entry) {
            return Some(partner - 1);
        }
    }
    None
}

// The releaser's section, if it is outside the cut and not the given one.
fn outside(cut: &Cut, releaser: Step, section: Dependence) -> Option<Dependence>
    ensures { MatchOption result (IsOwnOrInside (counts_of cut.now) section.lane.0 section.section releaser)
        (IsOnOutside (counts_of cut.now) section.lane.0 section.section releaser) }
{
    if is_counted(cut, releaser)
        || (releaser.lane.0 == section.lane.0 && releaser.section == section.section)
    {
        None
    } else {
        Some(Dependence {
            lane: releaser.lane,
            section: releaser.section,
        })
    }
}
