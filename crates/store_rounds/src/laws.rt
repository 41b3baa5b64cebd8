//! The laws of runs, each the contract of a function that does nothing.
ghost use Rattle.std.specs.Prelude.{ℕ, Result};
ghost use Rattle.heap_model.specs.declared.record.Record.{Record};
ghost use Rattle.heap_model.specs.declared.store_error.StoreError.{StoreError};
ghost use Rattle.store_rounds.specs.Runs.{ApplyRuns, FlushRuns, RoundRuns, RunNoneLaw, RunOnLaw};
ghost use Rattle.store_rounds.specs.Steps.{Applies, Flushes, MakesRound};
ghost use Rattle.store_rounds.specs.Store.{Parts};

use block_disk::Disk;

/// Calls made one after another leave a device as one run.
pub fn run_on_law()
    // Where no call is made, there is a run that changes nothing.
    ensures none { RunNoneLaw }
    // Two runs, one behind the other, are one run.
    ensures on { RunOnLaw }
{}

/// A round is a run.
pub fn round_run_law<D: Disk>()
    // A round leads the store from each past that it may have to one that it may have then, as a run that takes two sequences at most.
    ensures { (x y : Parts D) (result : Result (Unit {0}) StoreError) → MakesRound D.device x y result → RoundRuns D.device x y result }
{}

/// A flush is a run.
pub fn flush_run_law<D: Disk>()
    // A flush leads the store from each past that it may have to one that it may have then, as a run that takes one sequence at most.
    ensures { (x y : Parts D) (result : Result (Unit {0}) StoreError) → Flushes D.device x y result → FlushRuns D.device x y result }
{}

/// A record that is applied is a run.
pub fn apply_run_law<D: Disk>()
    // A record that is applied leads the store from each past that it may have to that with the record, as a run.
    ensures { (x y : Parts D) (lane : ℕ) (next : Record) (result : Result (Unit {0}) StoreError) → Applies D.device x y lane next result → ApplyRuns D.device x y lane next result }
{}
