//! A round, and bringing the kept values home.
ghost use Rattle.std.specs.Prelude.{◌≡◌, false, true};
ghost use Rattle.store_rounds.specs.Steps.{Flushes, MakesRound};
ghost use Rattle.store_rounds.specs.Turns.{IsBusy, IsQuiet, IsStableOf};

use crate::rows::is_acknowledged;
use crate::store::RoundStore;
use block_disk::Disk;
use heap_model::{Cut, StoreError};

impl<D: Disk> RoundStore<D> {
    /// Makes durable what was applied, acknowledges its stable cut and forgets it.
    ///
    /// With a lane for the helper that has room for the values which the round changes it takes two syncs; else four, by two commits. With
    /// nothing applied since the last round it takes no call. The time is linear in what was applied since the last round, in the records
    /// from the oldest one on that the new cut keeps, and but for two sorts in the fields that change or wait.
    /// Refusals, in this order: `Failed`; `Worn`: a control must be written, and its sequence is at its last value; `Fault`.
    pub fn round(&mut self) -> Result<(), StoreError>
        ensures { MakesRound D.device self.old self.new result }
    {
        if self.has_failed {
            return Err(StoreError::Failed);
        }
        let stable = self.sections.stable();
        if self.is_quiet(&stable.cut) {
            return Ok(());
        }
        self.rounds.survey(&stable.places);
        self.turn(&stable)
    }

    // Whether all that was applied is logged, and the stable cut is acknowledged.
    fn is_quiet(&self, stable: &Cut) -> bool
        requires { IsStableOf self.now.known.sections stable.now }
        ensures quiet { result ≡ true → IsQuiet D.device self.now stable.now }
        ensures busy { result ≡ false → IsBusy D.device self.now }
    {
        if !self.applied.fresh().is_empty() {
            return false;
        }
        is_acknowledged(self.threads, stable, &self.committed.rows)
    }

    /// Logs what was applied, and brings what is kept to the cells that lack it.
    ///
    /// It takes two syncs, and no call where there is nothing to do. Refusals as of [`round`](RoundStore::round).
    pub fn flush(&mut self) -> Result<(), StoreError>
        ensures { Flushes D.device self.old self.new result }
    {
        self.log_all()
    }
}
