//! What may go through the ring to the host, and when.
use crate::call::Handed;
use rtrb::Protocol;

/// First the device with its first bytes, and then, each time, the calls up to a sync.
#[derive(Clone, Copy)]
pub(crate) struct Handing;

impl Protocol<Handed> for Handing {
    ghost use Rattle.disk_deferred.specs.Handing.{MayHand};

    ghost allows = { λ before next. MayHand before next };
}
