//! Recovery of what a crash left of a heap while its threads ran.
ghost use Rattle.headline.specs.Headline.{GivesAgain, GivesLife};
ghost use Rattle.headline.specs.Hosts.{GivesHostClosing, GivesHostRound, GivesHostRun};
ghost use Rattle.headline.specs.Durable.{GivesDurable, GivesHostDurable};
ghost use Rattle.std.specs.Prelude.{◌≡◌, IfErr};
ghost use Rattle.recover.specs.Recovery.{HasOnlySynced, IsCaused, IsWorn};
ghost use Rattle.recover_heap.specs.declared.error.RecoverError.TheVariants.{Worn};

use block_disk::Disk;
use disk_deferred::DeferredDisk;
use image::Recovered;
use law_hosted::running_law;
use law_running::{round_law, stable_law};
use law_survival::again_law;
use recover::{RecoverError, Report, one_study_law, recover, studied_law};
use std::alloc::Global;
use thread_heap::life_law;
use trim_helper::seen_law;

/// Recovers a device that holds what a crash left of a heap while its threads ran, on a device of kind `D`.
///
/// It gives the heap of one set of sections, and counts them. In each legal history that goes on from what the helper has seen of the
/// threads, they are whole sections, each with every section that it depends on. Every section is among them that was acknowledged
/// before the call in which the crash came. That call may be a round or a closing, or the crash may come between two calls. Recovery
/// fails only if a call of its own device fails, memory runs out, or the control's sequence is at its end. `NoMemory` may always be
/// answered: no contract says how much memory there is.
pub fn recover_left<D: Disk, E: Disk>(
    alloc: Global,
    left: E,
) -> Result<(Recovered<E>, Report), (E, RecoverError)>
    // A heap was opened, made any number of rounds, and was closed or not. After a crash at any moment of that, recovery
    // gives whole sections of the threads' history, each with all that it depends on, and with all that was acknowledged.
    ensures life { GivesLife D.device (E.device left).now.bytes result }
    // What a thread has read as durable by some moment, recovery keeps after every crash from then on.
    ensures durable { GivesDurable D.device (E.device left).now.bytes result }
    // After a crash at any call of the next opening recovery gives the same heap, however often an opening is cut off.
    ensures again { GivesAgain D.device (E.device left).now.bytes result }
    // Recovery answers a fault only if a call of its own device has failed.
    ensures cause { IfErr result (λ back. IsCaused (E.device left) (E.device back.0) back.1) }
    // It answers that the control's sequence is at its end only if it is.
    ensures worn { IfErr result (λ back. back.1 ≡ Worn → IsWorn (E.device left).now.bytes) }
    // Where recovery is refused for another reason, it has synced the device and done nothing else.
    ensures untouched { IfErr result (λ back. HasOnlySynced (E.device left) (E.device back.0) back.1) }
{
    round_law::<D>();
    stable_law::<D>();
    life_law::<D>();
    seen_law::<D>();
    one_study_law();
    studied_law();
    again_law();
    recover(alloc, left)
}

/// The same for a heap whose calls a host makes on a device of its own, which a crash of that device left.
///
/// Every section is among those that it gives that was acknowledged when the host had made the calls handed over by then, or when the
/// round of the crash began.
pub fn recover_left_of_host<E: Disk>(
    alloc: Global,
    left: E,
) -> Result<(Recovered<E>, Report), (E, RecoverError)>
    // After a crash of a host's device while threads ran, recovery gives whole sections of the threads' history, with
    // all that was acknowledged when the host had made the calls that were handed over by then.
    ensures run { GivesHostRun (E.device left).now.bytes result }
    // So it does after a crash of the host's device by the end of a round, by the history that the helper has seen at
    // that end.
    ensures round { GivesHostRound (E.device left).now.bytes result }
    // So it does after a crash while the host makes the calls of a closing, by the history that the closing tells of.
    ensures closing { GivesHostClosing (E.device left).now.bytes result }
    // What a thread has read as durable, recovery keeps after every crash of the host's device, once the host has made
    // the calls that had been handed over by then.
    ensures durable { GivesHostDurable (E.device left).now.bytes result }
    // Recovery of a host's image answers a fault only if a call of its own device has failed.
    ensures cause { IfErr result (λ back. IsCaused (E.device left) (E.device back.0) back.1) }
    // It answers that the sequence of a host's image is at its end only if it is.
    ensures worn { IfErr result (λ back. back.1 ≡ Worn → IsWorn (E.device left).now.bytes) }
    // Where recovery of a host's image is refused for another reason, it has synced the device and done nothing else.
    ensures untouched { IfErr result (λ back. HasOnlySynced (E.device left) (E.device back.0) back.1) }
{
    running_law();
    stable_law::<DeferredDisk>();
    one_study_law();
    recover::<E>(alloc, left)
}
