//! How threads and helper wait for one another.

use std::sync::Wait;
use std::sync::atomic::{AtomicBool, AtomicU64, Ordering};

// What the gate says before which each thread waits: nothing yet, that bodies begin, or that none does.
const CLOSED: u64 = 0;

const OPEN: u64 = 1;

const SHUT: u64 = 2;

/// A gate before which threads wait until each lane has one, how many still work, and two counts on which threads and helper sleep. No
/// proof rests on them: what is read too late costs time alone.
#[derive(Drop)]
pub struct Bell {
    gate: AtomicU64,
    // How many threads haven't ended.
    working: AtomicU64,
    stopped: AtomicBool,
    // How often the helper was asked for a round.
    asks: AtomicU64,
    // How many rounds it has made.
    rounds: AtomicU64,
    // Whether it sleeps once a round finds nothing.
    rests: bool,
}

impl Bell {
    /// So many threads are to begin, beside a helper that sleeps once a round finds nothing, or doesn't.
    pub fn new(threads: u64, rests: bool) -> Bell {
        Bell {
            gate: AtomicU64::new(CLOSED),
            working: AtomicU64::new(threads),
            stopped: AtomicBool::new(false),
            asks: AtomicU64::new(0),
            rounds: AtomicU64::new(0),
            rests,
        }
    }

    /// Each lane has its thread: bodies begin.
    pub fn open(&self) {
        self.gate.store(OPEN, Ordering::SeqCst);
        self.gate.wake_all();
    }

    /// Some lane has no thread: no body begins.
    pub fn shut(&self) {
        self.gate.store(SHUT, Ordering::SeqCst);
        self.gate.wake_all();
    }

    /// Waits until bodies begin. `false` says that none does.
    pub fn await_start<R: Wait>(&self, rt: &R) -> bool {
        for _ in rt.forever() {
            match self.gate.load(Ordering::SeqCst) {
                CLOSED => self.gate.park(rt, CLOSED as u32),
                gate => return gate == OPEN,
            }
        }
        unreachable!()
    }

    /// This thread's body has returned.
    pub fn leave(&self) {
        self.working.fetch_sub(1, Ordering::SeqCst);
        self.ask();
    }

    /// Whether each thread's body has returned.
    pub fn has_ended(&self) -> bool {
        self.working.load(Ordering::SeqCst) == 0
    }

    /// The helper makes no more rounds: no thread has to wait for it any longer.
    pub fn stop(&self) {
        self.stopped.store(true, Ordering::SeqCst);
        self.tell();
    }

    /// Whether it has stopped.
    pub fn has_stopped(&self) -> bool {
        self.stopped.load(Ordering::SeqCst)
    }

    /// Asks the helper for a round, and wakes it.
    pub fn ask(&self) {
        self.asks.fetch_add(1, Ordering::SeqCst);
        self.asks.wake_one();
    }

    /// How often it was asked, in the low 32 bits.
    pub fn asks(&self) -> u32 {
        low(self.asks.load(Ordering::SeqCst))
    }

    /// Whether the helper sleeps once a round finds nothing.
    pub fn rests(&self) -> bool {
        self.rests
    }

    /// Sleeps until it is asked once more than so often.
    pub fn rest<R: Wait>(&self, rt: &R, asked: u32) {
        self.asks.park(rt, asked);
    }

    /// A round was made: wakes all that wait for one.
    pub fn tell(&self) {
        self.rounds.fetch_add(1, Ordering::SeqCst);
        self.rounds.wake_all();
    }

    /// How many rounds were made, in the low 32 bits.
    pub fn rounds(&self) -> u32 {
        low(self.rounds.load(Ordering::SeqCst))
    }

    /// Asks for a round, and sleeps until one more than so many was made.
    pub fn await_round<R: Wait>(&self, rt: &R, seen: u32) {
        self.ask();
        self.rounds.park(rt, seen);
    }
}

// The low 32 bits.
fn low(count: u64) -> u32 {
    (count % (1 << 32)) as u32
}
