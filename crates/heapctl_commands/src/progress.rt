//! How far workers are, and for how long they go on.
ghost use Rattle.std.specs.Prelude.{◌≡◌, ◌-◌, ◌^◌, None, IfSome};

use std::rt::Clock;
use std::sync::atomic::{AtomicBool, AtomicU64, Ordering};
use std::time::Instant;
use thread_drive::Meet;

// How often a run of so many sections is told of.
const TIMES: u64 = 10;

// How many rounds each worker works, where nothing is said (docs/SCRIPTS.md, "The program's words").
const ROUNDS: u32 = 1000;

/// How many rounds each worker works at most, where so many rounds are asked for, or so many seconds: by those it is stopped long before.
pub(crate) fn rounds_for(rounds: Option<u32>, seconds: Option<u32>) -> u32
    ensures asked { IfSome rounds (λ asked. result ≡ asked) }
    ensures timed { rounds ≡ None → IfSome seconds (λ timed. result ≡ 2 ^ 32 - 1) }
    // Without `--rounds` and `--seconds` workers are to work 1,000 rounds.
    ensures unsaid { rounds ≡ None → seconds ≡ None → result ≡ 1000 }
{
    match (rounds, seconds) {
        (Some(rounds), _) => rounds,
        (None, Some(_)) => u32::MAX,
        (None, None) => ROUNDS,
    }
}

/// Who watches workers until they have ended.
pub trait Watch: Meet {
    /// They have ended.
    fn end(&self);
}

/// Tells how far workers are, where it is to tell, on one line of standard error that each next text overwrites. It does so at each tenth
/// of their sections. Where they work for a time it does so at each second, and ends them then.
#[derive(Drop)]
pub(crate) struct Progress<'a, R> {
    rt: &'a R,
    is_told: bool,
    // The sections of all workers, how many of them were begun, and whether a text was told.
    all: u64,
    begun: AtomicU64,
    told: AtomicBool,
    // For how many seconds they work, where that is said; since when, unless the clock fails; and how many have passed.
    seconds: Option<u32>,
    since: Option<Instant>,
    passed: AtomicU64,
}

impl<'a, R: Clock> Progress<'a, R> {
    /// So many workers begin to work: so many rounds, or so many seconds.
    pub(crate) fn new(
        rt: &'a R,
        is_told: bool,
        workers: u8,
        rounds: u32,
        seconds: Option<u32>,
    ) -> Progress<'a, R> {
        Progress {
            rt,
            is_told,
            all: u64::from(workers) * u64::from(rounds),
            begun: AtomicU64::new(0),
            told: AtomicBool::new(false),
            seconds,
            since: Instant::now(rt).ok(),
            passed: AtomicU64::new(0),
        }
    }

    // How many whole seconds they have worked; `None` where the clock fails.
    fn whole_seconds(&self) -> Option<u64> {
        let since = self.since?;
        let passed = since.elapsed(self.rt).ok()?;
        Some(passed.as_secs())
    }
}

impl<R: Eprint + Clock> Progress<'_, R> {
    // A text that can't be written is left out.
    fn tell_rounds(&self, begun: u64) {
        if self.is_told {
            self.told.store(true, Ordering::SeqCst);
            let _ = eprint!(self.rt; "\rheapctl: {begun} of {} sections", self.all);
        }
    }

    fn tell_seconds(&self, passed: u64, seconds: u32) {
        if self.is_told {
            let begun = self.begun.load(Ordering::SeqCst);
            self.told.store(true, Ordering::SeqCst);
            let _ = eprint!(self.rt; "\rheapctl: {begun} sections, {passed} of {seconds} seconds");
        }
    }
}

impl<R: Eprint + Clock> Meet for Progress<'_, R> {
    fn inside(&self, _worker: u8) -> bool {
        let begun = self.begun.fetch_add(1, Ordering::SeqCst).wrapping_add(1);
        let step = (self.all / TIMES).max(1);
        if self.seconds.is_none() && begun % step == 0 {
            self.tell_rounds(begun);
        }
        true
    }

    // A clock that fails ends a run of seconds, which would else have no end.
    fn goes_on(&self) -> bool {
        let Some(seconds) = self.seconds else {
            return true;
        };
        let Some(passed) = self.whole_seconds() else {
            return false;
        };
        if self.passed.swap(passed, Ordering::SeqCst) < passed {
            self.tell_seconds(passed, seconds);
        }
        passed < u64::from(seconds)
    }
}

impl<R: Eprint + Clock> Watch for Progress<'_, R> {
    // The line ends where there is one.
    fn end(&self) {
        if self.told.load(Ordering::SeqCst) {
            let _ = eprintln!(self.rt; "");
        }
    }
}
