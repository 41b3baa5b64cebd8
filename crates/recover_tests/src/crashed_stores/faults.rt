//! Faults at each call of a recovery, which is then run again.
ghost use Rattle.std.specs.Prelude.{◌≤◌};

use super::runs::{Outcome, crashed, cut, dropped, kept, recovery_of, stored};
use block_disk::{Fill, MemDisk};
use recover::{RecoverError, Why, recover};
use std::alloc::Global;

// What a second recovery answers of the image, where the first one's call of this number is a fault, which is told as one.
// None where the first makes fewer calls, or memory is wanting.
fn left_behind(alloc: Global, image: &MemDisk, call: u64) -> Option<Result<Outcome, RecoverError>>
    requires { 1 ≤ call }
{
    let mut disk = MemDisk::from_bytes(alloc, image.bytes()).ok()?;
    disk.fail_call(call);
    match recover(alloc, disk) {
        Err((disk, RecoverError::Fault)) => recovery_of(alloc, disk),
        Err((disk, error)) => {
            drop(disk);
            Some(Err(error))
        }
        Ok(made) => {
            drop(made);
            None
        }
    }
}

// Whether a recovery makes fewer calls than these, so that none of its own is the fault.
fn is_recovered(alloc: Global, image: &MemDisk, call: u64) -> Option<bool>
    requires { 1 ≤ call }
{
    let mut disk = MemDisk::from_bytes(alloc, image.bytes()).ok()?;
    disk.fail_call(call);
    let answer = recover(alloc, disk);
    let is_ok = answer.is_ok();
    drop(answer);
    Some(is_ok)
}

// How many faults there are in turn, from this call on, behind which the second recovery answers this.
fn so_many(alloc: Global, image: &MemDisk, first: u64, wanted: Outcome) -> u64
    requires { 1 ≤ first }
{
    for call in first..1_000 {
        if left_behind(alloc, image, call) != Some(Ok(wanted)) {
            return call.saturating_sub(first);
        }
    }
    0
}

// Behind how many faults the section is found and dropped, behind how many more there is none any longer, and whether
// a recovery makes no more calls than these.
fn counted(alloc: Global) -> Option<(u64, u64, bool)> {
    let image = crashed(alloc, &stored()[..6], Fill::Lost)?;
    let found = Outcome {
        kept: cut(0, 0),
        dropped: [dropped(0, 1, Why::Unsettled), None],
        undone: 1,
        heap: [10, 20],
    };
    let before = so_many(alloc, &image, 1, found);
    let ended = kept(0, 0, [10, 20]);
    let behind = so_many(alloc, &image, before.saturating_add(1), ended);
    let last = before.saturating_add(behind).saturating_add(1);
    let is_last = is_recovered(alloc, &image, last);
    drop(image);
    Some((before, behind, is_last?))
}

// The section is logged and written home, and not settled. The new control shows where the last call alone fails, which is the
// sync behind its gate.
#[test]
fn a_fault_at_each_call_of_a_recovery_is_told_and_done_with_by_the_next(rt: HostRuntime) {
    assert!(rt; counted(rt.alloc()) == Some((16, 1, true)));
}
