//! Which live sections recovery drops, and why.
ghost use Rattle.std.specs.Prelude.{◌≡◌, ◌+◌, ◌<◌, ◌≤◌, IfOk, IfErr, MatchResult};
ghost use Rattle.image_parts.specs.Control.{AreRows};
ghost use Rattle.image_parts.specs.Layout.{IsLayout};
ghost use Rattle.recover_heap.specs.Logs.{AreGuards, AreLoggable, AreReplayOf, lanes_of, logged_guard_in};
ghost use Rattle.recover.specs.Settled.{AreLegal};
ghost use Rattle.recover_logs.specs.Tables.{log_of};
ghost use Rattle.recover.specs.Dropping.{AreDropped};
ghost use Rattle.recover.specs.Live.{AddsReports, IsEntryBy, IsReady, IsWhyBy, live_at};
ghost use Rattle.recover_heap.specs.declared.error.RecoverError.TheVariants.{NoMemory};

use crate::graph_of::graph_of;
use crate::live_counts::live_counts;
use crate::live_sections::LiveSections;
use crate::report::{Dropped, Why};
use dependence::Graph;
use heap_model::{Lane, UndoRecord};
use image::{GuardRow, LaneRow, Layout};
use recover_heap::RecoverError;
use recover_logs::Step;
use std::alloc::Global;

/// The sections that recovery drops, by lane and then by number: each live one that isn't settled, with the reason.
///
/// The guard rows, the rows and the lanes' live records are those of an image that no test refuses, and the steps are
/// the replay of the records. A section that hasn't ended is `Unfinished`. One that is outside the stable cut of the
/// live records is `After` the first of its dependences that is outside too. Any other is `Unsettled`. Sections are
/// numbered since the heap was opened: a lane's first live one comes after those of its `kept` ones that aren't live.
///
/// `NoMemory` comes where there is no room for the graph of the sections or for the list. The time is linear in the
/// records, for each of which the lanes are looked through at most once, and in one more pass over them for each lane.
pub fn dropped_sections(
    alloc: Global,
    layout: &Layout,
    guards: &[GuardRow],
    rows: &[LaneRow; 32],
    logs: &[Vec<UndoRecord>],
    steps: &[Step],
) -> Result<Vec<Dropped>, RecoverError>
    requires limits { IsLayout layout.now }
    requires guards { AreGuards layout.now guards.now }
    requires rows { AreRows layout.now rows.now }
    requires logs { AreLoggable layout.now rows.now logs.now }
    requires replays { AreReplayOf guards.now logs.now steps.now }
    requires legal { AreLegal (logged_guard_in guards.now) rows.now (lanes_of logs.now) }
    ensures exact { MatchResult result
        (λ dropped. AreDropped rows.now (lanes_of logs.now)
        (log_of steps.now) layout.now.lanes dropped.items) (λ e. e ≡ NoMemory) }
{
    let mut graph = graph_of(alloc, layout.lanes, steps)?;
    let counts = live_counts(rows, logs);
    let mut dropped = Vec::new(alloc);
    for lane in 0..layout.lanes {
        drop_lane(&mut dropped, &mut graph, &counts, Lane(lane))?;
    }
    Ok(dropped)
}

// Adds the lane's live sections that aren't settled.
fn drop_lane(
    dropped: &mut Vec<Dropped>,
    graph: &mut Graph,
    counts: &[LiveSections; 32],
    lane: Lane,
) -> Result<(), RecoverError>
    requires lane { lane.0 < 32 }
    requires ready { IsReady counts.now graph.old }
    requires order { (live_at counts.now lane.0).settled ≤ (live_at counts.now lane.0).live }
    requires few { (live_at counts.now lane.0).live ≤ (live_at counts.now lane.0).whole + 1 }
    ensures added { IfOk result (λ _. AddsReports counts.now graph.old lane.0 dropped.old.items
        dropped.new.items) }
    ensures no_other { IfErr result (λ e. e ≡ NoMemory) }
    ensures same { graph.new ≡ graph.old }
{
    let sections = counts[usize::from(lane.0)];
    for before in sections.settled..sections.live {
        let next = dropped_section(graph, counts, lane, before + 1);
        let Ok(()) = dropped.push(next) else {
            return Err(RecoverError::NoMemory);
        };
    }
    Ok(())
}

// What the report says of the lane's live section.
fn dropped_section(
    graph: &mut Graph,
    counts: &[LiveSections; 32],
    lane: Lane,
    section: u64,
) -> Dropped
    requires lane { lane.0 < 32 }
    requires ready { IsReady counts.now graph.old }
    requires few { section ≤ (live_at counts.now lane.0).whole + 1 }
    ensures entry { IsEntryBy counts.now graph.old lane.0 section result }
    ensures same { graph.new ≡ graph.old }
{
    Dropped {
        lane,
        section: counts[usize::from(lane.0)].trimmed + section,
        why: why_dropped(graph, counts, lane, section),
    }
}

// Why the lane's live section, which isn't settled, is dropped.
fn why_dropped(graph: &mut Graph, counts: &[LiveSections; 32], lane: Lane, section: u64) -> Why
    requires lane { lane.0 < 32 }
    requires ready { IsReady counts.now graph.old }
    ensures why { IsWhyBy counts.now graph.old lane.0 section result }
    ensures same { graph.new ≡ graph.old }
{
    if section > counts[usize::from(lane.0)].whole {
        return Why::Unfinished;
    }
    match graph.reason(lane, section) {
        Some(first) => Why::After {
            lane: first.lane,
            section: counts[usize::from(first.lane.0)].trimmed + first.section,
        },
        None => Why::Unsettled,
    }
}
