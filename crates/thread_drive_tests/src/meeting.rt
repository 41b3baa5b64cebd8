//! Two sections are open at once.

use std::alloc::Global;
use std::sync::Wait;
use std::sync::atomic::{AtomicBool, Ordering};
use std::thread;
use std::thread::Threads;
use thread_drive::{Meet, drive_with};

// How often a worker looks for the other.
const MOST_TURNS: u32 = 10_000_000;

// Each of two workers raises its flag within its section, looks for the other's, and notes whether it saw it.
#[derive(Drop)]
struct Flags {
    raised: [AtomicBool; 2],
    seen: [AtomicBool; 2],
}

impl Flags {
    fn new() -> Flags {
        Flags {
            raised: [AtomicBool::new(false), AtomicBool::new(false)],
            seen: [AtomicBool::new(false), AtomicBool::new(false)],
        }
    }

    // Whether the flag comes up.
    fn look_for(&self, other: usize) -> bool {
        let Some(flag) = self.raised.get(other) else {
            return false;
        };
        for _ in 0..MOST_TURNS {
            if flag.load(Ordering::SeqCst) {
                return true;
            }
            thread::yield_now();
        }
        false
    }
}

impl Meet for Flags {
    fn inside(&self, worker: u8) -> bool {
        let (Some(own), Some(seen)) = (
            self.raised.get(usize::from(worker)),
            self.seen.get(usize::from(worker)),
        ) else {
            return false;
        };
        own.store(true, Ordering::SeqCst);
        let met = self.look_for(usize::from(worker == 0));
        seen.store(met, Ordering::SeqCst);
        met
    }
}

// Whether each of two workers met the other in its one section.
fn meetings<R: Threads + Wait + Sync>(rt: &R, alloc: Global) -> (bool, bool, bool) {
    let flags = Flags::new();
    let done = match drive_with(rt, alloc, &flags, 2, 1) {
        Ok(driven) => {
            drop(driven);
            true
        }
        Err(_) => false,
    };
    (
        done,
        flags.seen[0].load(Ordering::SeqCst),
        flags.seen[1].load(Ordering::SeqCst),
    )
}

#[test]
fn two_sections_meet(rt: HostRuntime) {
    assert!(rt; meetings(&rt, rt.alloc()) == (true, true, true));
}
