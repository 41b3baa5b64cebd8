//! What is told of an opening: which sections recovery kept and dropped, and why; or for which record it refused.
ghost use Rattle.std.specs.Prelude.{◌≡◌};
ghost use Rattle.host_heap.specs.declared.error.HostError.TheVariants as host;
ghost use Rattle.zelamiku.specs.ReportDoors as doors;
ghost use Rattle.zelamiku.specs.ReportDoors.{TellsEach, nothing_told, told_of, told_of_refusal, told_why};

use crate::heap_calls;
use crate::session_calls::NOBODY;
use crate::words::{Dropped, Told};
use heap_model::{LANES, Lane};
use host_heap::{HostError, HostedHeap};
use recover::{Dropped as Section, RecoverError, Report, Why};

/// It hasn't ended.
pub const UNFINISHED: u32 = 1;

/// It depends on another section that wasn't kept.
pub const AFTER: u32 = 2;

/// It wasn't acknowledged before the crash.
pub const UNSETTLED: u32 = 3;

/// Nothing is told.
pub fn nothing() -> Told
    ensures { result ≡ nothing_told }
{
    blamed(NOBODY, 0)
}

fn blamed(lane: u32, place: u64) -> Told
    ensures { result ≡ doors.blamed lane place }
{
    Told {
        found: heap_calls::nothing_found(),
        kept: [0; LANES],
        place,
        lane,
    }
}

/// What is told of a heap that was opened.
pub fn of_heap(heap: &HostedHeap, report: &Report) -> Told
    ensures { result ≡ told_of heap.now report.now }
{
    Told {
        found: heap_calls::found_in(heap, report),
        kept: report.kept.counts,
        place: 0,
        lane: NOBODY,
    }
}

/// What is told of one that wasn't.
pub fn of_refusal(refusal: HostError) -> Told
    ensures { result ≡ told_of_refusal refusal }
{
    match refusal {
        HostError::Recover(refusal) => of_recover(refusal),
        HostError::NoMemory | HostError::Schema(_) | HostError::Image(_) => nothing(),
    }
}

fn of_recover(refusal: RecoverError) -> Told
    ensures { result ≡ told_of_refusal (host.Recover refusal) }
{
    match refusal {
        RecoverError::BadRecord { lane, place } | RecoverError::IllegalLog { lane, place } => {
            blamed(u32::from(lane.0), place)
        }
        _ => nothing(),
    }
}

/// The sections that were dropped, as many as there is room for.
pub fn tell_dropped(sections: &[Section], dropped: &mut [Dropped])
    ensures { TellsEach sections.now dropped.new }
{
    for (i, entry) in dropped.iter_mut().enumerate() {
        *entry = told_at(sections.get(i).copied());
    }
}

fn told_at(section: Option<Section>) -> Dropped
    ensures { result ≡ doors.told_at section }
{
    match section {
        Some(section) => of_section(section.lane, section.section, section.why),
        None => dropped_for(NOBODY, 0, 0),
    }
}

fn of_section(lane: Lane, section: u64, why: Why) -> Dropped
    ensures { result ≡ told_why lane.0 section why }
{
    let lane = u32::from(lane.0);
    match why {
        Why::Unfinished => dropped_for(lane, section, UNFINISHED),
        Why::After {
            lane: other,
            section: later,
        } => Dropped {
            after_section: later,
            after_lane: u32::from(other.0),
            ..dropped_for(lane, section, AFTER)
        },
        Why::Unsettled => dropped_for(lane, section, UNSETTLED),
    }
}

// By no other section.
fn dropped_for(lane: u32, section: u64, why: u32) -> Dropped
    ensures { result ≡ doors.dropped_for lane section why }
{
    Dropped {
        section,
        after_section: 0,
        lane,
        why,
        after_lane: NOBODY,
    }
}
