//! What was applied is made durable, its stable cut is acknowledged, and what is acknowledged is forgotten.
ghost use Rattle.std.specs.Prelude.{◌≡◌, OnOk, false};
ghost use Rattle.block_disk.specs.Device.{HasCause};
ghost use Rattle.heap_model.specs.declared.store_error.StoreError.TheVariants.{Fault};
ghost use Rattle.store_rounds.specs.Runs.{TakesSequences};
ghost use Rattle.trim_helper.specs.Settled.{SettlesAndTrimsApplied, StaysFailed};

use block_disk::Disk;
use heap_model::StoreError;
use law_cuts::stable_law;
use store_rounds::RoundStore;

/// Makes durable what was applied, acknowledges its stable cut and forgets it, by one round of the store.
pub fn make_durable<D: Disk>(store: &mut RoundStore<D>) -> Result<(), StoreError>
    ensures settles { SettlesAndTrimsApplied D.device store.old store.new result }
    ensures still { StaysFailed D.device store.old store.new }
    ensures running { OnOk result (store.new.known.has_failed ≡ false) }
    ensures cause { HasCause (D.device store.old.disk).failures (D.device store.new.disk).failures Fault result }
    ensures takes { TakesSequences 2 store.old.known (D.device store.old.disk) store.new.known (D.device store.new.disk) }
    ensures layout { store.new.known.layout ≡ store.old.known.layout }
    ensures threads { store.new.known.threads ≡ store.old.known.threads }
{
    stable_law();
    store.round()
}
