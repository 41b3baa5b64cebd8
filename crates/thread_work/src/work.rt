//! What threads of a heap do.
ghost use Rattle.std.specs.Prelude.{Result};
ghost use Rattle.monitor.specs.Seats.{Home};
ghost use Rattle.session.specs.declared.error.SessionError.{SessionError};
ghost use Rattle.session.specs.declared.session.Session.{Session};
ghost use Rattle.thread_work.specs.Threads.{IsFirst};

use crate::joint::Joint;
use crate::thread::HeapThread;
use session::SessionError;
use std::sync::Wait;
use thread_rings::RingRecords;

/// What each thread of a heap does, with a session of its own.
pub trait Work {
    /// What a body makes of its thread's session, in a heap of these words: the session as it was, as the body leaves it, and what it
    /// answers. A run says it of each lane, so that a caller knows it of what has run. Without a line of it nothing is said.
    ghost does: { Self → Home → Session → Session → Result (Unit {0}) SessionError → Type 0 } = { λ work home old new answer. Unit {0} };

    /// Called once for each lane ([`HeapThread::lane`]), in a thread of its own. What it answers is handed on: the heap is closed all the
    /// same, unless the thread still holds a monitor. The thread's session was told nothing before.
    fn work<J: Joint, R: Wait>(
        &self,
        rt: &R,
        thread: &mut HeapThread<'_, J>,
    ) -> Result<(), SessionError>
        requires { IsFirst J.home thread.old }
        ensures { does self.now J.home thread.old thread.new result };

    /// Whether the helper sleeps once a round finds nothing, until a thread asks for one ([`HeapThread::durable`], a call that is refused
    /// as `Behind`, or a body that returns). Where this says no it makes one round after another.
    fn lets_helper_rest(&self) -> bool {
        true
    }

    /// How many records each thread's ring has room for: a thread that is so many ahead of the helper is refused as `Behind`. By default
    /// 16,384, of 24 bytes each.
    fn ring_records(&self) -> RingRecords {
        match RingRecords::of(16_384) {
            Some(records) => records,
            None => RingRecords::usual(),
        }
    }
}
