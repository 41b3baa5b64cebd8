//! A whole run: calls, a crash, recovery.
ghost use Rattle.durable.specs.Plays.{Plays};
ghost use Rattle.law_survival.specs.Promise.{HasMoments, Recovers, SurvivesCrash, SurvivesTries};

use crate::laws::{again_law, has_study_law};
use block_disk::Disk;
use durable::{Store, StoreCall, StoreError};
use image::Recovered;
use recover::{RecoverError, Report, recover};
use std::alloc::Global;

/// What a run and the recovery after it answered.
#[derive(Drop)]
pub struct WholeRun<E: Disk> {
    /// What [`Store::play`] answered.
    pub played: Result<(), (usize, StoreError)>,
    /// What [`recover`] answered.
    pub recovered: Result<(Recovered<E>, Report), (E, RecoverError)>,
}

/// Plays these calls on the store, as far as they go. Then it recovers the device `left`, which stands for the machine after the
/// crash: any device that holds bytes that a crash of the store's device may leave.
///
/// **What survives.** Recovery accepts whatever bytes a crash leaves at any moment of the run. It gives the heap that was
/// acknowledged after some of the calls: the acknowledged sections and nothing else, each whole, with all that it depends on. If
/// the crash cuts a settling off, the heap may be the one that this settling acknowledges. Calls with no settling give nothing
/// that wasn't acknowledged before them ([`unsettled_law`](crate::unsettled_law)).
///
/// **The moment.** After each call that was made there is a moment that parts the run in two ([`sides_law`](crate::sides_law)).
/// A crash from then on keeps each section that was acknowledged by then. A crash up to then keeps none that was acknowledged
/// later.
///
/// **Again and again.** The same holds if recovery was tried before, any number of times, and each time a crash cut it off or the
/// device failed. The heap is that of the first try. So is the report, with each reason, until the last commit of a try shows:
/// then nothing is left to keep or to drop. However a try ends, another may follow.
///
/// Recovery refuses the image only if a call of the device fails, memory runs out, or the control's sequence is at its last
/// value. A store that hadn't failed comes there only if it began within as many of that value as there were calls and tries.
/// What a refusal of either call leaves is what [`Store::play`] and [`recover`] say.
pub fn play_and_recover<D: Disk, E: Disk>(
    alloc: Global,
    store: &mut Store<D>,
    calls: &[StoreCall],
    left: E,
) -> WholeRun<E>
    ensures survives { SurvivesCrash D.device store.old store.new calls.now (E.device left).now.bytes result.recovered }
    ensures moments { HasMoments D.device store.old store.new calls.now result.played (E.device left).now.bytes result.recovered }
    ensures again { SurvivesTries D.device store.old store.new calls.now (E.device left).now.bytes result.recovered }
    ensures played { Plays D.device store.old store.new calls.now result.played }
    ensures recovered { Recovers E.device left result.recovered }
{
    again_law();
    has_study_law();
    WholeRun {
        played: store.play(calls),
        recovered: recover(alloc, left),
    }
}
