//! Laws of a hosted heap's life, each the contract of a function that does nothing.
ghost use Rattle.law_hosted.specs.Copies.{ClosedCopyLaw, CopyLaw, RunningCopyLaw};
ghost use Rattle.law_hosted.specs.Running.{HostClosingLaw, HostRoundLaw, HostRunLaw};
ghost use Rattle.law_hosted.specs.Safe.{AcknowledgedLaw, BegunLaw, ClosedLaw, EndsLaw, HostLaw, KeptRunLaw, LivesLaw, NowLaw, OpeningLaw};
ghost use Rattle.law_hosted.specs.Stopped.{StillClosingLaw, StillRoundLaw};
ghost use Rattle.law_hosted.specs.Told.{AcknowledgedToldLaw, HostReadLaw};

use disk_deferred::DeferredDisk;
use law_rounds::round_run_law;
use law_running::{round_law, stable_law};
use trim_helper::seen_law;

/// Recovery accepts whatever a crash left at any moment of a store's run, and keeps every section that was acknowledged when the run
/// began.
pub fn kept_law()
    // Each image that a crash left at any moment of a run keeps all that was acknowledged when the run began.
    ensures { KeptRunLaw }
{
    round_run_law();
}

/// What a crash of the host's device leaves, at whatever moment it comes: before a call that the host makes, in it or after it.
/// - `opening`: while the host makes the calls by which a heap was opened or upgraded, a crash leaves the bytes that there were, or an
///   image that has the same heap;
/// - `begun`: once the host has made those calls, recovery accepts whatever a crash leaves;
/// - `acknowledged`, `now`: once the host has made the calls that were handed over when a count of sections was told as acknowledged,
///   recovery keeps so many, right then and later; `any_moment` is the general case;
/// - `lives`, `ends`: no later call takes that back, nor does a closing, whatever it answers;
/// - `closed`: once the host has made the calls that are left of a heap that was closed, recovery keeps all sections;
/// - `copy`, `closed_copy`: a copy of the disk in memory is kept so too: each section that is acknowledged by then, or all of them after
///   the closing.
pub fn host_law()
    // Once the host has made the calls that had been handed over before a run of the store, whatever a crash of its
    // device leaves keeps what was acknowledged then. The crash may come before a call, in the midst of it, or after it.
    ensures any_moment { HostLaw }
    // Once the host has made the calls by which a heap was made or opened, recovery accepts whatever a crash of its
    // device leaves.
    ensures begun { BegunLaw }
    // Once the host has made the calls that were handed over when a count of sections was acknowledged, no later crash
    // of its device loses them. Recovery accepts whatever the crash leaves, and keeps at least so many sections of the
    // lane.
    ensures acknowledged { AcknowledgedLaw }
    // Right when a count of sections was acknowledged, recovery accepts whatever a crash of the host's device leaves,
    // and keeps at least so many sections of the lane.
    ensures now { NowLaw }
    // A round of the heap goes on with one run of the store, whatever it answers.
    ensures lives { LivesLaw }
    // A closing goes on with the run of the store, whatever it answers.
    ensures ends { EndsLaw }
    // Once the host has made all calls that are left after a closing, recovery accepts whatever a crash of its device
    // leaves, and it stands for the heap of the closing's history with all its sections.
    ensures closed { ClosedLaw }
    // While the host makes the calls by which a heap was opened or upgraded, a crash of its device leaves the bytes
    // that it had, or an image on recovery's way with the same heap.
    ensures opening { OpeningLaw }
    // A copy of the heap's image, made between two rounds, is a heap that recovery accepts. It keeps every section that
    // is acknowledged by then, also after a fault.
    ensures copy { CopyLaw }
    // A copy of a closed heap is the heap of the closing's history, with all its sections.
    ensures closed_copy { ClosedCopyLaw }
{
    kept_law();
}

/// What a crash of the host's device keeps while threads run, at whatever moment it comes: whole sections of the threads' history, each
/// with every section that it depends on. They include every section that was acknowledged when the host had made the calls that were
/// handed over by then, or when the heap was opened.
/// - `run`: since any moment at which the store had a past; `round`: up to the end of a round, whatever the round answers;
/// - `closing`: while the host makes the calls of a closing, sections of the history that the closing tells of;
/// - `copy`: a copy of the disk in memory keeps what a crash right now would;
/// - `still`, `still_closing`: a round or a closing after a fault takes nothing of that back.
///
/// The law speaks of each legal history that goes on from what the heap's helper has seen of the threads (`law_running::round_law`),
/// and of each way in which the host comes on with the calls that it was handed.
pub fn running_law()
    // While threads run, whatever a crash of the host's device leaves keeps whole sections of the threads' history,
    // each with all that it depends on. It keeps all that was acknowledged when the host had made the calls handed over
    // by then.
    ensures run { HostRunLaw }
    // After a round of the heap, whatever a crash of the host's device leaves keeps whole sections of the history that
    // the helper has seen by then, and of each that goes on from it.
    ensures round { HostRoundLaw }
    // At whatever moment of the calls of a closing, what a crash of the host's device leaves keeps whole sections of the
    // closing's history, with all that was acknowledged when the host had made the calls handed over by then.
    ensures closing { HostClosingLaw }
    // What recovery keeps of a copy, while threads run, are whole sections of their history, as after a crash right
    // then.
    ensures copy { RunningCopyLaw }
    ensures still { StillRoundLaw }
    ensures still_closing { StillClosingLaw }
{
    round_law::<DeferredDisk>();
    seen_law::<DeferredDisk>();
}

/// No crash of the host's device takes back what was told of a hosted heap, even if the heap is never closed.
/// - `acknowledged`: what the heap told as acknowledged, from then on;
/// - `read`: what a session has read as stable, once the host has made the calls of the round that published it.
///
/// The kept sections are of the one history of the crash, in which each lane's part is what its session had been told by then
/// (`law_running::stable_law`).
pub fn told_law()
    // What the heap has told as acknowledged is kept as whole sections of the one history of the crash, in which each
    // lane's part is just what its session had been told by then.
    ensures acknowledged { AcknowledgedToldLaw }
    // What a session has read as stable is kept, once the host has made the calls that were handed over by the end of
    // the round that published it.
    ensures read { HostReadLaw }
{
    running_law();
    stable_law::<DeferredDisk>();
}
