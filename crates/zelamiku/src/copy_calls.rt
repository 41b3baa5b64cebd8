//! A copy of a heap's image, on what a handle has.
ghost use Rattle.std.specs.Prelude.{◌≡◌, ◌≢◌, Some};
ghost use Rattle.zelamiku.specs.Handles.{Answers, holding};
ghost use Rattle.zelamiku.specs.CopyDoors.{CopiesAt};
ghost use Rattle.zelamiku.specs.declared.status.TheConstants.{OK};

use crate::state::{Inner, Open};
use crate::status;

/// Copies bytes of the image from `at` on: how many, or 0, and the status.
pub fn copy(state: &Inner, at: u64, bytes: &mut [u8]) -> (u64, u32)
    ensures told { Answers (CopiesAt at bytes.old bytes.new result.0) (Some state.now) (Some state.now) result.1 }
    ensures refused { result.1 ≢ OK → result.0 ≡ 0 }
    ensures kept { result.1 ≢ OK → bytes.new ≡ bytes.old }
{
    copy_of(&state.open, at, bytes)
}

fn copy_of(found: &Open, at: u64, bytes: &mut [u8]) -> (u64, u32)
    ensures told { CopiesAt at bytes.old bytes.new result.0 found.now (holding found.now) result.1 }
    ensures refused { result.1 ≢ OK → result.0 ≡ 0 }
    ensures kept { result.1 ≢ OK → bytes.new ≡ bytes.old }
{
    match found {
        Open::Heap(heap) => (heap.copy_from(at, bytes) as u64, status::OK),
        Open::Closed(closed) => (closed.copy_from(at, bytes) as u64, status::OK),
        Open::Stopped(_) => (0, status::STOPPED),
        _ => (0, status::WRONG_KIND),
    }
}
