//! A heap begins to run.
ghost use Rattle.std.specs.Prelude.{◌≡◌, ◌<◌, ◌≤◌, ◌+◌, ◌^◌, IfErr, IfOk};
ghost use Rattle.thread_heap.specs.Opening.{IsOpened};
ghost use Rattle.trim_helper.specs.Opening.{FitsSchema};

use crate::running_heap::RunningHeap;
use block_disk::Disk;
use guards::Schema;
use image::Recovered;
use session::open_sessions;
use std::alloc::{AllocError, Global};
use thread_rings::RingRecords;
use trim_helper::{Helper, Opened, open_heap};

/// Opens a heap of this schema that was recovered: its words, a session for each of the threads' lanes, and the helper, with rings of this
/// room between them. The first `threads` lanes are the threads'; where the image has one more, that is the helper's own, and its rounds may
/// take two syncs. Release numbers stay at `last` or below.
///
/// An error is want of memory. The device is given back as it was, and may be recovered again.
pub fn open<D: Disk>(
    alloc: Global,
    schema: Schema,
    recovered: Recovered<D>,
    threads: u8,
    last: u64,
    ring: RingRecords,
) -> Result<RunningHeap<D>, (D, AllocError)>
    requires last { last < 2 ^ 40 }
    requires schema { FitsSchema schema recovered.layout recovered.guards }
    requires some { 1 ≤ threads }
    requires within { threads ≤ recovered.layout.lanes }
    requires most { recovered.layout.lanes ≤ threads + 1 }
    // A new heap runs with what was recovered. It has a new session for each of the threads' lanes, joined to its
    // helper by a ring of the room that was asked for. Nothing was told to it, and all is settled.
    ensures opened { IfOk result (IsOpened D.device schema recovered threads last ring) }
    // After want of memory the device is given back as it was.
    ensures refused { IfErr result (λ back. back.0 ≡ recovered.disk) }
{
    let layout = recovered.layout();
    // Its limits are known from here on.
    let _records = ring.get();
    let opened = match open_heap(alloc, schema, recovered, threads, last) {
        Ok(opened) => opened,
        Err((recovered, error)) => return Err((recovered.into_disk(), error)),
    };
    let Opened {
        shared,
        seats,
        store,
        seat,
    } = opened;
    let (sessions, rings) = match open_sessions(alloc, &shared, seats, layout.capacity, ring) {
        Ok(made) => made,
        Err(error) => {
            drop(seat);
            drop(shared);
            return Err((store.into_disk(), error));
        }
    };
    let helper = Helper::new(store, rings, seat);
    Ok(RunningHeap {
        shared,
        sessions,
        helper,
    })
}
