//! The turns of a round: each is one commit.
ghost use Rattle.std.specs.Prelude.{◌≡◌, [], false, true};
ghost use Rattle.heap_model.specs.Log.{log_from};
ghost use Rattle.store_rounds.specs.Turns.{Acknowledges, HasWork, IsIdle, IsPlan, LogsAll};

use crate::cells::{is_joined, leave_changed_out};
use crate::keeping::acknowledge;
use crate::records::{ThreadsRecords, limits_law};
use crate::rows::{acknowledged_cut, starts};
use crate::store::RoundStore;
use block_disk::Disk;
use heap_model::StoreError;
use std::mem::swap;
use store_memory::StableSections;
use store_round_making::make_round;
use store_round_sections::{first_law, push_sections};

impl<D: Disk> RoundStore<D> {
    // Makes durable what was applied, and acknowledges the cut of this plan: by one turn where the helper's sections have room, else by
    // two.
    pub(crate) fn turn(&mut self, stable: &StableSections) -> Result<(), StoreError>
        requires serves { self.old.known.has_failed ≡ false }
        requires plan { IsPlan self.old.known.sections self.old.known.rounds stable.now.cut stable.now.places }
        ensures { Acknowledges D.device 2 stable.now.cut self.old self.new result }
    {
        if self.committed.sequence == u64::MAX {
            return Err(StoreError::Worn);
        }
        if !is_joined(
            &mut self.cells,
            self.rounds.changed(),
            &self.guards,
            &self.layout,
            self.threads,
            &self.committed.rows,
        ) {
            return self.turn_apart(stable);
        }
        limits_law(&self.applied);
        first_law();
        // From here on only a fault is a refusal, after which no one asks what the cells lack.
        swap(&mut self.cells, &mut self.pending);
        leave_changed_out(&mut self.cells, &self.rounds);
        self.helper.clear();
        push_sections(
            &mut self.helper,
            &self.pending,
            &self.guards,
            self.rounds.first(),
        );
        match make_round(
            &mut self.disk,
            &self.layout,
            &mut self.committed,
            self.threads,
            &stable.cut,
            &stable.places,
            &self.cells,
            &ThreadsRecords {
                threads: self.threads,
                applied: &self.applied,
            },
            &self.helper,
        ) {
            Ok(()) => {
                acknowledge(
                    &mut self.applied,
                    &mut self.sections,
                    &mut self.rounds,
                    stable,
                );
                Ok(())
            }
            Err(reason) => {
                self.has_failed = true;
                Err(reason)
            }
        }
    }

    // Makes durable what was applied, and then acknowledges the cut of this plan.
    fn turn_apart(&mut self, stable: &StableSections) -> Result<(), StoreError>
        requires serves { self.old.known.has_failed ≡ false }
        requires plan { IsPlan self.old.known.sections self.old.known.rounds stable.now.cut stable.now.places }
        ensures { Acknowledges D.device 2 stable.now.cut self.old self.new result }
    {
        match self.log_all() {
            Ok(()) => self.settle(stable),
            Err(reason) => Err(reason),
        }
    }

    // Logs what was applied, and brings what is kept to the cells that lack it.
    pub(crate) fn log_all(&mut self) -> Result<(), StoreError>
        ensures { LogsAll D.device self.old self.new result }
    {
        if self.has_failed {
            return Err(StoreError::Failed);
        }
        if self.is_idle() {
            return Ok(());
        }
        limits_law(&self.applied);
        let cut = acknowledged_cut(&self.committed.rows);
        let places = starts(&self.committed.rows);
        match make_round(
            &mut self.disk,
            &self.layout,
            &mut self.committed,
            self.threads,
            &cut,
            &places,
            &self.pending,
            &ThreadsRecords {
                threads: self.threads,
                applied: &self.applied,
            },
            &[],
        ) {
            Ok(()) => {
                self.applied.logged_all();
                self.pending.clear();
                Ok(())
            }
            Err(reason) => match reason {
                StoreError::Fault => {
                    self.has_failed = true;
                    Err(reason)
                }
                _ => Err(reason),
            },
        }
    }

    // Whether nothing is to be logged, and no cell waits.
    fn is_idle(&self) -> bool
        ensures idle { result ≡ true → IsIdle self.now.known }
        ensures work { result ≡ false → HasWork D.device self.now }
    {
        if !self.applied.fresh().is_empty() {
            return false;
        }
        self.pending.is_empty()
    }

    // Acknowledges the cut of this plan, where all that was applied is logged.
    fn settle(&mut self, stable: &StableSections) -> Result<(), StoreError>
        requires serves { self.old.known.has_failed ≡ false }
        requires plan { IsPlan self.old.known.sections self.old.known.rounds stable.now.cut stable.now.places }
        requires logged { log_from self.old.known.memory.fresh ≡ [] }
        requires home { self.old.known.pending ≡ [] }
        ensures { Acknowledges D.device 1 stable.now.cut self.old self.new result }
    {
        limits_law(&self.applied);
        match make_round(
            &mut self.disk,
            &self.layout,
            &mut self.committed,
            self.threads,
            &stable.cut,
            &stable.places,
            self.rounds.changed(),
            &ThreadsRecords {
                threads: self.threads,
                applied: &self.applied,
            },
            &[],
        ) {
            Ok(()) => {
                acknowledge(
                    &mut self.applied,
                    &mut self.sections,
                    &mut self.rounds,
                    stable,
                );
                Ok(())
            }
            Err(reason) => match reason {
                StoreError::Fault => {
                    self.has_failed = true;
                    Err(reason)
                }
                _ => Err(reason),
            },
        }
    }
}
