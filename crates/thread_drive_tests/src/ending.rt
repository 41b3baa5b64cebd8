//! Workers that are ended before their rounds are.

use std::alloc::Global;
use std::sync::Wait;
use std::sync::atomic::{AtomicU64, Ordering};
use std::thread::Threads;
use thread_drive::{Meet, drive_with};

// Lets so many sections begin, and no more.
#[derive(Drop)]
struct Few {
    left: AtomicU64,
}

impl Meet for Few {
    fn inside(&self, _worker: u8) -> bool {
        true
    }

    fn goes_on(&self) -> bool {
        let left = self.left.load(Ordering::SeqCst);
        self.left.store(left.saturating_sub(1), Ordering::SeqCst);
        left > 0
    }
}

// Whether a worker of so many rounds that may begin so many sections has them acknowledged, and no other.
fn works<R: Threads + Wait + Sync>(rt: &R, alloc: Global, sections: u64, rounds: u32) -> bool {
    let few = Few {
        left: AtomicU64::new(sections),
    };
    match drive_with(rt, alloc, &few, 1, rounds) {
        Ok(driven) => {
            let is_so = driven.acknowledged.as_slice() == [sections].as_slice()
                && driven.heap.as_slice() == [sections, sections].as_slice();
            drop(driven);
            is_so
        }
        Err(_) => false,
    }
}

#[test]
fn workers_end_where_they_are_told_to(rt: HostRuntime) {
    assert!(rt; works(&rt, rt.alloc(), 3, 100));
    assert!(rt; works(&rt, rt.alloc(), 0, 100));
}

// A section has 6 records, and a lane holds 4,000. Without rounds that trim it the worker would wait for ever.
#[test]
fn rounds_are_made_while_workers_work(rt: HostRuntime) {
    assert!(rt; works(&rt, rt.alloc(), 1000, 1000));
}
