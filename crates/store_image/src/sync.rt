//! A sync with this crate's refusal.
ghost use Rattle.std.specs.Prelude.{◌≡◌, [], IfErr, OnOk};
ghost use Rattle.block_disk.specs.Device.{synced};
ghost use Rattle.block_disk.specs.Since.{HasCauseSince, LeavesBut};
ghost use Rattle.heap_model.specs.declared.store_error.StoreError.TheVariants.{Fault};

use block_disk::{Disk, make_durable};
use heap_model::StoreError;

/// Makes what was written durable. `Fault` fixes nothing.
pub fn sync<D: Disk>(disk: &mut D) -> Result<(), StoreError>
    ensures ok { OnOk result (D.device disk.new ≡ synced (D.device disk.old)) }
    ensures only_fault { IfErr result (λ e. e ≡ Fault) }
    ensures any_moment { LeavesBut [] (D.device disk.old) (D.device disk.new) }
    ensures cause { HasCauseSince (D.device disk.old) (D.device disk.new) Fault result }
{
    match make_durable(disk) {
        Ok(()) => Ok(()),
        Err(_) => Err(StoreError::Fault),
    }
}
