//! Runs of a store that end in a crash, and what recovery makes of what is left.
mod altered;
mod crashes;
mod faults;
mod larger;
mod runs;
mod stale_openings;
mod upgrades;

ghost use Rattle.std.specs.Prelude.{◌≤◌};

use crate::crashed_stores::runs::{
    Outcome, acq, after, answered, crashed, cut, dropped, kept, left_by, new_store, one, put,
    recovery_of, rel, released, store_on, stored, two, two_stores, wait,
};
use block_disk::{Fill, MemDisk};
use durable::{StoreCall, StoreError};
use law_survival::{WholeRun, play_and_recover};
use recover::{RecoverError, Why};
use std::alloc::Global;

// A section that is logged, written home and acknowledged.
#[test]
fn an_acknowledged_section_is_kept(rt: HostRuntime) {
    assert!(rt; left_by(rt.alloc(), &stored()) == Some(Ok(kept(1, 0, [5, 20]))));
}

// The second section took what the first one freed, and the first one still holds a monitor.
#[test]
fn a_section_goes_with_the_unfinished_one_that_it_depends_on(rt: HostRuntime) {
    let wanted = Outcome {
        kept: cut(0, 0),
        dropped: [dropped(0, 1, Why::Unfinished), dropped(1, 1, after(0, 1))],
        undone: 1,
        heap: [10, 20],
    };
    assert!(rt; left_by(rt.alloc(), &two_stores()) == Some(Ok(wanted)));
}

// The same two once the first has ended: both are kept.
#[test]
fn both_are_kept_once_the_first_has_ended(rt: HostRuntime) {
    assert!(rt; left_by(rt.alloc(), &released()) == Some(Ok(kept(1, 1, [2, 20]))));
}

// Each of two sections takes a monitor that the other one freed. The last three calls end the second.
fn circle() -> [StoreCall; 14] {
    [
        one(acq(0, 0)),
        one(acq(1, 0)),
        one(rel(1, 0)),
        two(acq(2, 0)),
        two(acq(1, 1)),
        two(rel(2, 0)),
        one(acq(2, 1)),
        one(rel(2, 1)),
        one(rel(0, 0)),
        StoreCall::Log,
        StoreCall::Settle,
        two(rel(1, 1)),
        StoreCall::Log,
        StoreCall::Settle,
    ]
}

// What recovery answers while one is open, and then.
fn left_by_circle(alloc: Global) -> Option<[Option<Result<Outcome, RecoverError>>; 2]> {
    let calls = circle();
    let begun = calls.as_slice().get(..11)?;
    Some([left_by(alloc, begun), left_by(alloc, &calls)])
}

// While one is open, neither is kept.
#[test]
fn sections_that_depend_on_each_other_are_kept_together(rt: HostRuntime) {
    let neither = Outcome {
        kept: cut(0, 0),
        dropped: [dropped(0, 1, after(1, 1)), dropped(1, 1, Why::Unfinished)],
        undone: 0,
        heap: [10, 20],
    };
    let wanted = [Some(Ok(neither)), Some(Ok(kept(1, 1, [10, 20])))];
    assert!(rt; left_by_circle(rt.alloc()) == Some(wanted));
}

// A wait inside of a section ends it only where it frees the last monitor.
#[test]
fn a_wait_that_holds_another_monitor_ends_no_section(rt: HostRuntime) {
    let calls = [
        one(acq(0, 0)),
        one(acq(1, 0)),
        one(wait(0, 0)),
        StoreCall::Log,
        StoreCall::Settle,
    ];
    let wanted = Outcome {
        kept: cut(0, 0),
        dropped: [dropped(0, 1, Why::Unfinished), None],
        undone: 0,
        heap: [10, 20],
    };
    assert!(rt; left_by(rt.alloc(), &calls) == Some(Ok(wanted)));
}

// Whether a section is played, a fault in its logging is told, and recovery finds no section.
fn told_of_failed_sync(alloc: Global, call: u64) -> Option<[bool; 3]>
    requires { 1 ≤ call }
{
    let mut disk = MemDisk::new(alloc, 130_208).ok()?;
    disk.fail_call(call);
    let mut store = store_on(alloc, disk)?;
    let calls = [one(acq(0, 0)), one(put(0, 10, 5)), one(rel(0, 0))];
    let played = store.play(&calls) == Ok(());
    let failed = store.log_step() == Err(StoreError::Fault);
    let left = recovery_of(alloc, store.into_disk());
    Some([played, failed, left == Some(Ok(kept(0, 0, [10, 20])))])
}

// The format takes 13 calls of the device and the section's records 3, so the sync behind them is the 17th.
#[test]
fn a_section_whose_sync_failed_is_as_never_logged(rt: HostRuntime) {
    assert!(rt; told_of_failed_sync(rt.alloc(), 17) == Some([true; 3]));
}

// Whether a run is played whole, whether recovery keeps both of its sections, and how many calls of the device it made.
fn told_of_whole_run(alloc: Global) -> Option<(bool, bool, u64)> {
    let left = crashed(alloc, &released(), Fill::Lost)?;
    let Some(mut store) = new_store(alloc) else {
        drop(left);
        return None;
    };
    let WholeRun { played, recovered } = play_and_recover(alloc, &mut store, &released(), left);
    let stops = store.disk().stops();
    drop(store);
    let is_kept = answered(recovered) == Some(Ok(kept(1, 1, [2, 20])));
    Some((played == Ok(()), is_kept, stops))
}

// A run that is cut off by a crash behind its last call. The device calls of a log step are a write for each record, a
// sync and a commit, which takes 4 the first time and then 6; those of a settling a sync and a commit.
#[test]
fn a_whole_run_is_played_and_recovered(rt: HostRuntime) {
    let calls = 13 + 12 + 1 + 7 + 8 + 7;
    assert!(rt; told_of_whole_run(rt.alloc()) == Some((true, true, calls)));
}
