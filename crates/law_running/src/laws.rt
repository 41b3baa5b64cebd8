//! Laws of a heap's life, each the contract of a function that does nothing.
ghost use Rattle.law_running.specs.Crashes.{CrashInClosingLaw, CrashLaw};
ghost use Rattle.law_running.specs.Faults.{CrashInFailedCloseLaw, RunsOnFailedLaw};
ghost use Rattle.law_running.specs.Halves.{ReadWhilePublishingLaw, ReadWhileSettlingLaw};
ghost use Rattle.law_running.specs.Running.{CrashBetweenLaw, CrashInRoundLaw, CrashInRunLaw, CrashNowLaw, CrashSinceLaw, SeesMoreLaw, ToldLaw};
ghost use Rattle.law_running.specs.Told.{KeepsReadAtRestLaw, KeepsReadInRoundLaw, KeepsReadLaw, KeepsToldLaw, ReadLaw, RestLaw, RisesLaw};

use crate::released_law;
use block_disk::Disk;
use law_histories::{log_law, own_log_law, sent_law};
use law_rounds::{round_run_law, two_syncs_law};
use thread_heap::life_law;
use trim_helper::seen_law;

/// Recovery accepts whatever a crash leaves of a heap while threads run. It keeps whole sections of the threads' history, each with every
/// section that it depends on, and every section that was acknowledged before the crash. The clauses say so of each moment:
/// - `run`: of a run of a store that a helper served, with all that was acknowledged when the run began;
/// - `round`: of a round, whatever the round answers, with all that was acknowledged before the round;
/// - `opened`: from the opening to the end of a round;
/// - `between`: from the opening to now, while the helper rests between two rounds;
/// - `now`: right now, while the helper rests, with all that is acknowledged by now;
/// - `closing`: of a run that ends with a closing, with all that was acknowledged when the run began.
///
/// What is kept stays so as the helper sees more of the history (`more`). After the closing it is kept of the history in which each
/// session's part is what the session was told (`told`).
///
/// The history is the threads' own, in whose order each session was answered. The helper has seen a beginning of it. So the law speaks
/// of each legal history that goes on from what was seen at the last round's end, whatever the threads did until the crash. No section
/// that the helper hadn't seen is kept, and none of these was acknowledged. A store that had failed before a round makes no call in it:
/// what a crash leaves then, a crash might have left in the round that failed.
///
/// For example, lane 0 sent a whole section and then took an object again. A round applies all four records, and has heard the lane up
/// to the first release. A crash after its settling leaves the section kept, and the second taking counts for nothing, whether the
/// history goes on with its release or never does.
pub fn round_law<D: Disk>()
    // While threads run, what a crash leaves at any moment of any run of the store keeps whole sections of their
    // history, and all that was acknowledged before the run.
    ensures run { CrashInRunLaw D.device }
    // While threads run, recovery accepts whatever a crash leaves at any moment of a round. It keeps whole sections of
    // the threads' history, each with all that it depends on, and all that was acknowledged before the round.
    ensures round { CrashInRoundLaw D.device }
    // What a crash leaves at any moment from the opening of a heap to the end of a round keeps whole sections of the
    // threads' history.
    ensures opened { CrashSinceLaw D.device }
    // What a crash leaves between two rounds, of any moment since the opening, keeps whole sections of the threads'
    // history.
    ensures between { CrashBetweenLaw D.device }
    // What a crash leaves between two rounds keeps all that is acknowledged by then.
    ensures now { CrashNowLaw D.device }
    // What a crash leaves at any moment of a closing keeps whole sections of the closing's history, and all that was
    // acknowledged before the closing.
    ensures closing { CrashInClosingLaw D.device }
    // What a crash keeps stays so in each legal history that goes on from what was seen.
    ensures more { SeesMoreLaw }
    // Once the heap is closed, what a crash kept is of the one history in which each session's part is what it was
    // told.
    ensures told { ToldLaw }
{
    log_law();
    own_log_law();
    sent_law();
    released_law();
    two_syncs_law();
    seen_law::<D>();
}

/// A heap was closed at last. At whatever moment since its opening a crash had come, recovery would have accepted what it left, and kept
/// whole sections of the history that the closing tells of, each with every section that it depends on.
pub fn crash_law<D: Disk>()
    // Whatever a crash had left at any moment of a heap that was closed later, recovery would have accepted. It would
    // have kept whole, closed sections of the one history in which each session's part is what it was told.
    ensures { CrashLaw D.device }
{
    life_law::<D>();
    round_run_law();
}

/// No crash takes back what a session has read as stable, even if its heap is never closed. [`Session::stable`](session::Session::stable)
/// has answered a count. Recovery accepts whatever a crash leaves from then on, and keeps at least so many sections of the session's lane
/// (`since`, `in_round`, `at_rest`). What it keeps are whole sections of one legal history, each with every section that it depends on;
/// in that history each lane's part is just what its session had been told when the crash came (`keeps`).
///
/// "From then on" begins when the helper rested between two rounds and had published so much (`rest`, `read`, `rises`), or in the midst of
/// a round ([`halves_law`]). A moment is a state of the shared words between two steps of the threads, whose rule
/// says so (`monitor`, `Kept`). No call is made at a moment, and no session meets the helper.
pub fn stable_law<D: Disk>()
    // What a crash keeps are whole sections of one legal history, in which each lane's part is just what its session
    // had been told when the crash came.
    ensures keeps { KeepsToldLaw }
    // What the helper has published by some moment it has noted at each later one, and no number falls.
    ensures rises { RisesLaw }
    // While the helper rests, a count that a session last read was published, is acknowledged, and is that of a whole,
    // closed cut of what is applied.
    ensures rest { RestLaw D.device }
    // What a session has read as stable by some moment is acknowledged in the past that the helper serves, if the
    // helper had published no more by that moment.
    ensures read { ReadLaw D.device }
    // What a session has read as stable no crash takes back, though the heap is never closed. Whatever a crash leaves
    // since, recovery accepts, and it keeps at least so many sections of the lane.
    ensures since { KeepsReadLaw D.device }
    // What a session has read as stable is kept of a crash in a round, once the helper has heard its rings.
    ensures in_round { KeepsReadInRoundLaw D.device }
    // What a session has read as stable is kept of a crash while the helper rests.
    ensures at_rest { KeepsReadAtRestLaw D.device }
{
    round_law::<D>();
    seen_law::<D>();
}

/// After a fault nothing more happens to what a crash keeps. A run whose store has failed goes on over each further round as it is
/// (`rounds`). So [`round_law`] speaks of the moments since then too: recovery keeps whole sections of the threads' history, and every
/// section that was acknowledged. A closing gives the device back as it was (`closing`).
pub fn failed_law<D: Disk>()
    ensures rounds { RunsOnFailedLaw D.device }
    ensures closing { CrashInFailedCloseLaw D.device }
{
    life_law::<D>();
    round_law::<D>();
}

/// What a session reads as stable in the midst of a round is under [`stable_law`] too. While the helper settles, it publishes nothing: the
/// count is acknowledged in the past that the helper served before (`settling`). While it publishes, its device stays: the count is
/// acknowledged in the past that it serves after, on the same device (`publishing`).
pub fn halves_law<D: Disk>()
    ensures settling { ReadWhileSettlingLaw D.device }
    ensures publishing { ReadWhilePublishingLaw D.device }
{
    stable_law::<D>();
}
