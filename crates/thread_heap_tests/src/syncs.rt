//! How many writes and syncs a round takes.

ghost use Rattle.block_disk.specs.Memory.{device_of};
ghost use Rattle.thread_heap.specs.Joined.{IsHelping};
ghost use Rattle.session.specs.Sessions.{IsSessionOf};

use crate::counted_disk::CountedDisk;
use crate::heap::{disk_of, new_disk, open_one};
use crate::work::{add_one, serve};
use block_disk::MemDisk;
use monitor::Shared;
use session::Session;
use std::alloc::Global;
use std::sync::Wait;
use thread_heap::RunningHeap;
use trim_helper::Helper;

// So many sections of one store with a round after each, and then so many rounds with nothing new. Returns whether all were Ok.
fn add_and_serve<R: Wait>(
    rt: &R,
    shared: &Shared,
    session: &mut Session,
    helper: &mut Helper<CountedDisk>,
    sections: u32,
    rounds: u32,
) -> bool
    requires helping { IsHelping (λ d. device_of d.disk) shared.now helper.old }
    requires seat { IsSessionOf shared.now session.old }
{
    let mut is_ok = true;
    for _ in 0..sections {
        is_ok &= add_one(rt, shared, session);
        is_ok &= serve(shared, helper).is_ok();
    }
    for _ in 0..rounds {
        is_ok &= serve(shared, helper).is_ok();
    }
    is_ok
}

// The same of this heap.
fn serve_heap<R: Wait>(
    rt: &R,
    heap: &mut RunningHeap<CountedDisk>,
    session: &mut Session,
    sections: u32,
    rounds: u32,
) -> bool
    requires helping { IsHelping (λ d. device_of d.disk) heap.old.shared heap.old.helper }
    requires seat { IsSessionOf heap.old.shared session.old }
{
    add_and_serve(
        rt,
        &heap.shared,
        session,
        &mut heap.helper,
        sections,
        rounds,
    )
}

// The writes and syncs that were made then of the disk of a heap that began to run.
fn counts<R: Wait>(rt: &R, alloc: Global, sections: u32, rounds: u32) -> Option<(u64, u64)> {
    let disk = CountedDisk::of(new_disk(alloc)?);
    match open_one(alloc, disk) {
        Some((mut heap, mut session)) => {
            let is_ok = serve_heap(rt, &mut heap, &mut session, sections, rounds);
            drop(session);
            let disk = disk_of(heap);
            let counts = disk.counts;
            drop(disk);
            if is_ok { Some(counts) } else { None }
        }
        None => None,
    }
}

// So many sections, so many rounds with nothing new, and the writes and syncs.
type Case = (u32, u32, (u64, u64));

// The making of the image takes 12 writes and 3 syncs. A round takes a write for each of the section's three records, one for
// its field, and two for each of two controls; and 4 syncs. One with nothing new takes none, also where it is the first.
const CASES: [Case; 5] = [
    (0, 0, (12, 3)),
    (0, 1, (12, 3)),
    (1, 0, (12 + 8, 3 + 4)),
    (2, 0, (12 + 8 + 8, 3 + 4 + 4)),
    (2, 1, (12 + 8 + 8, 3 + 4 + 4)),
];

// The first of these of which it takes others.
fn first_other<R: Wait>(rt: &R, alloc: Global) -> Option<Case> {
    for case in CASES {
        let (sections, rounds, found) = case;
        if counts(rt, alloc, sections, rounds) != Some(found) {
            return Some(case);
        }
    }
    None
}

#[test]
fn a_round_makes_four_syncs(rt: HostRuntime) {
    assert!(rt; first_other(&rt, rt.alloc()).is_none());
}
