//! Laws of what a crash leaves of a run of threads, each the contract of a function that does nothing.
ghost use Rattle.thread_work.specs.Crashes.{RecoveredLaw, RecoveryTakenLaw, RunTakenLaw};
ghost use Rattle.thread_work.specs.Durable.{KeepsDurableAtRestLaw, KeepsDurableInRoundLaw, KeepsDurableLaw};

use block_disk::Disk;
use law_rounds::two_syncs_law;
use law_running::stable_law;
use law_survival::has_study_law;
use recover::{one_study_law, studied_law};

/// Recovery accepts whatever a crash left of a device that was recovered, at any moment of a run of its store after that, and at any
/// moment of a recovery of what the run left.
pub fn taken_law()
    // Recovery accepts whatever a crash leaves of a device that was recovered, and on which nothing was done since.
    ensures recovered { RecoveredLaw }
    // Recovery accepts whatever a crash left at any moment of a run of a store.
    ensures run { RunTakenLaw }
    // Recovery accepts whatever a crash left of a recovery after a store's run, wherever that ended.
    ensures recovery { RecoveryTakenLaw }
{
    has_study_law();
    two_syncs_law();
    one_study_law();
    studied_law();
}

/// No crash takes back what a thread had ended when [`HeapThread::durable`](crate::HeapThread::durable) answered Ok, also of a run that is
/// refused later, or never closed. Recovery accepts whatever a crash leaves from then on, and keeps at least so many sections of the
/// thread's lane. They are of one legal history, in which each lane's part is just what its session had been told when the crash came.
/// [`stable_law`] says more; this is what it says of `durable`.
pub fn durable_law<D: Disk>()
    // What a thread had ended when `durable` answered Ok no crash takes back, at any moment of any run of its store
    // since, though the heap is never closed.
    ensures since { KeepsDurableLaw D.device }
    // What a thread had ended when `durable` answered Ok is kept of a crash in a round, whatever that answers.
    ensures in_round { KeepsDurableInRoundLaw D.device }
    // What a thread had ended when `durable` answered Ok is kept of a crash while the helper rests.
    ensures at_rest { KeepsDurableAtRestLaw D.device }
{
    stable_law::<D>();
}
